// What the Walsh words are: orthogonal, those of the reference butterfly, and with correlations of a known range. Laws, and no code.
#![tactic(auto)]

pub mod laws;
