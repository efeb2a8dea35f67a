// Any f64 beside the numbers k / 512, in order and in distance: laws, and no code.
#![tactic(auto)]

pub mod laws;
