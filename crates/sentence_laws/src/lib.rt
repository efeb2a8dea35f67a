// What holds of the list of sentences as a whole. Laws, and no code.
#![tactic(auto)]

pub mod laws;
