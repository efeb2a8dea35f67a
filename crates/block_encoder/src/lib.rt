// One block of the published chain, encoded: document 01, "Sending a block".
#![tactic(auto)]

ghost use Rattle.std.specs.Prelude.{true, ◌≡◌, ◌≤◌, leb, length, position};
ghost use Rattle.lists.specs.Lists.{over};
ghost use Rattle.refusal.specs.Checks.{is_mode};
ghost use Rattle.chain.specs.Chain.{tones_of};
ghost use Rattle.block_encoder.specs.Encoding.{encode_block, encoded_into};
ghost use Rattle.block_encoder.specs.Checking.{check_count, check_each, check_codes};

use chain::gray;
use refusal::{Reason, Refusal, checks};

mod symbols;

// Encodes the mode's codes as 64 tones at the front of tones.
pub fn encode_block(mode: u32, codes: &[u8], tones: &mut [u16]) -> Result<usize, Refusal>
    ensures answer { result ≡ encode_block mode codes.now (length tones.old) }
    ensures output { tones.new ≡ encoded_into mode codes.now tones.old }
{
    check_count(mode, codes)?;
    if tones.len() < 64 {
        return Err(Refusal::at(Reason::Room, 0));
    }
    check_each(codes)?;
    put_tones(mode, codes, tones);
    Ok(64)
}

// Whether the codes are a block of the mode, for a block that is to be sent later.
pub fn check_codes(mode: u32, codes: &[u8]) -> Result<(), Refusal>
    ensures { result ≡ check_codes mode codes.now }
{
    check_count(mode, codes)?;
    check_each(codes)
}

// The codes are as many as the mode has.
fn check_count(mode: u32, codes: &[u8]) -> Result<(), Refusal>
    ensures { result ≡ check_count mode codes.now }
{
    if checks::check_mode(mode)? == codes.len() {
        Ok(())
    } else {
        Err(Refusal::at(Reason::CodeCount, 0))
    }
}

// Each code is below 128.
fn check_each(codes: &[u8]) -> Result<(), Refusal>
    ensures { result ≡ check_each codes.now }
{
    match first_bad_code(codes) {
        Some(bad) => Err(Refusal::at(Reason::Code, bad)),
        None => Ok(()),
    }
}

// The lowest place of a code of 128 or more, if there is one. In a message 0 is none either: one line there, with a test of its own.
fn first_bad_code(codes: &[u8]) -> Option<usize>
    ensures { result ≡ position (λ code. leb 128 code) codes.now }
{
    codes.iter().position(|&code| 128 <= code)
}

// The 64 tones of the codes, over the front of tones.
fn put_tones(mode: u32, codes: &[u8], tones: &mut [u16])
    requires { (is_mode mode ≡ true) × (length codes.now ≡ mode) × (64 ≤ length tones.old) }
    ensures { tones.new ≡ over (tones_of mode codes.now) tones.old }
{
    let symbols = symbols::of_codes(mode, codes);
    for t in 0..64 {
        tones[t] = gray::tone_of(u16::from(symbols[t]));
    }
}
