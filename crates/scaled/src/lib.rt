// The f64 numbers that are k / 512, and that the operations on them are exact: laws, and no code.
#![tactic(auto)]

pub mod laws;
