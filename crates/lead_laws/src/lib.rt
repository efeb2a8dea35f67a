// What raising the set lead does to the answer to a block. A law, and no code.
#![tactic(auto)]

pub mod laws;
