// Demand 2 of document 01 for a message, what its blocks by themselves tell of it, and what raising m does to its answer: laws over the entries
// of `message_encoder` and `message_decoder`.
#![tactic(auto)]

pub mod laws;
