// Hearing with weights, document 02's order 3: laws over `block_encoder` and `block_decoder`, demand 3 among them.
#![tactic(auto)]

use block_decoder::BlockDecoded;
use refusal::Refusal;

pub mod laws;

// The answers of the three calls, and document 02's D.
#[derive(Clone, Copy)]
pub struct WeightedTrial {
    pub encoded: Result<usize, Refusal>,
    pub first: BlockDecoded,
    pub second: BlockDecoded,
    pub damage: u32,
}
