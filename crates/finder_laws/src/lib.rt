// What finding a block means: of what decoding each stretch of a run gives, of a block that was sent, and of a raised m. Laws, and no code.
#![tactic(auto)]

pub mod laws;
