// What thirty depots can count on, over any run of calls to one sender. Laws, and no code.
#![tactic(auto)]

pub mod laws;
