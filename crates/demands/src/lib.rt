// Demands 2 and 3 of document 01 for one block: laws over the entries of `block_encoder` and `block_decoder`.
#![tactic(auto)]

use block_decoder::BlockDecoded;
use refusal::Refusal;

pub mod laws;

// The answers of the three calls, and document 01's r and u.
#[derive(Clone, Copy)]
pub struct Trial {
    pub encoded: Result<usize, Refusal>,
    pub first: BlockDecoded,
    pub second: BlockDecoded,
    pub replaced: usize,
    pub missing: usize,
}
