// The published chain, from codes to tones: document 01, "Sending a block". Its rules are in specs/Chain.antt; here are the tables of the
// Gray code, of the key and of the places, and a code's bits.
#![tactic(auto)]

pub mod gray;
pub mod interleaver;
pub mod laws;
pub mod scrambler;

// The mark of a missing tone, an erasure. It may stand only in tones to be decoded. A number and no Option, since document 01 fixes the mark.
pub const MISSING: u16 = 65535;
