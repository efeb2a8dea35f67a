// A text of several blocks, encoded: document 01, "Messages".
#![tactic(auto)]

ghost use Rattle.std.specs.Prelude.{◌≡◌, true, not, ◌+◌, ◌*◌, ◌≤◌, length, replicate, position};
ghost use Rattle.lists.specs.Lists.{tab, num, over};
ghost use Rattle.refusal.specs.Checks.{within, is_mode};
ghost use Rattle.message_encoder.specs.Blocks.{longest, block_count};
ghost use Rattle.message_encoder.specs.Encoding.{first_bad_text_code, sent_tones, encode_message, message_encoded_into};

use refusal::{Reason, Refusal, checks};

// The most codes of a message.
pub const LONGEST: usize = 1024;

// The code that fills the last block.
const FILLING: u8 = 0;

// Encodes a text of codes from 1 to 127 as 64 tones a block, at the front of tones.
pub fn encode_message(mode: u32, text: &[u8], tones: &mut [u16]) -> Result<usize, Refusal>
    ensures answer { result ≡ encode_message longest mode text.now (length tones.old) }
    ensures output { tones.new ≡ message_encoded_into longest mode text.now tones.old }
{
    encode_within(LONGEST, mode, text, tones)
}

// Encodes a text of at most limit codes.
fn encode_within(limit: usize, mode: u32, text: &[u8], tones: &mut [u16]) -> Result<usize, Refusal>
    requires { limit ≤ longest }
    ensures answer { result ≡ encode_message limit mode text.now (length tones.old) }
    ensures output { tones.new ≡ message_encoded_into limit mode text.now tones.old }
{
    let b = checks::check_mode(mode)?;
    if limit < text.len() {
        return Err(Refusal::at(Reason::CodeCount, 0));
    }
    let count = block_count(b, text.len());
    if tones.len() < 64 * count {
        return Err(Refusal::at(Reason::Room, 0));
    }
    if let Some(bad) = first_bad_code(text) {
        return Err(Refusal::at(Reason::Code, bad));
    }
    put_blocks(mode, text, count, tones);
    Ok(64 * count)
}

// The blocks that a count of codes takes.
fn block_count(mode: usize, codes: usize) -> usize
    requires { 1 ≤ mode }
    ensures { result ≡ block_count mode codes }
{
    codes.div_ceil(mode)
}

// The lowest place of a code that is not from 1 to 127, if there is one.
fn first_bad_code(text: &[u8]) -> Option<usize>
    ensures { result ≡ position (λ code. not (within 1 127 code)) text.now }
{
    text.iter().position(|&code| !(1..=127).contains(&code))
}

// The code at place i; past the end it is the filling.
fn code_at(text: &[u8], i: usize) -> u8
    ensures { result ≡ num text.now i }
{
    text.get(i).copied().unwrap_or(FILLING)
}

// The mode's codes from place at on; the rest of the eight are 0.
fn codes_from(mode: usize, text: &[u8], at: usize) -> [u8; 8]
    requires { (mode ≤ 8) × (at ≤ 2 * longest) }
    ensures { result ≡ over (tab (λ q. num text.now (at + q)) mode) (replicate 8 0) }
{
    let mut codes = [0u8; 8];
    for q in 0..mode {
        codes[q] = code_at(text, at + q);
    }
    codes
}

// The tones of the first count blocks, over the front of tones.
fn put_blocks(mode: u32, text: &[u8], count: usize, tones: &mut [u16])
    requires mode { is_mode mode ≡ true }
    requires codes { length text.now ≤ first_bad_text_code text.now }
    requires few { count * mode ≤ 2 * longest }
    requires room { 64 * count ≤ length tones.old }
    ensures { tones.new ≡ over (sent_tones mode text.now count) tones.old }
{
    let b = mode as usize;
    for k in 0..count {
        let codes = codes_from(b, text, k * b);
        // The codes were checked, so no block is refused.
        let _ = block_encoder::encode_block(mode, &codes[..b], &mut tones[64 * k..64 * k + 64]);
    }
}
