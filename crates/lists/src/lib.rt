// The vocabulary of all definitions: lists as functions of the place, sums, first places, a front written over an output, and numbers
// capped. It has no code; specs/ has the definitions, and proofs/ the lemmas that go with them.
#![tactic(auto)]

pub mod laws;
