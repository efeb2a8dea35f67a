// What a block's energies tell: the sums that noise cannot change, and when a word is the only best one. Laws, and no code.
#![tactic(auto)]

pub mod laws;
