// What counts k times as large do to a decision: a law, and no code.
#![tactic(auto)]

pub mod laws;
