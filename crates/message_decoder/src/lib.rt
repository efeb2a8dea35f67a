// A text of several blocks, decoded: document 01, "Messages".
#![tactic(auto)]

ghost use Rattle.std.specs.Prelude.{◌≡◌, true, ◌+◌, ◌*◌, ◌≤◌, ◌^◌, length, take, Ok};
ghost use Rattle.lists.specs.Lists.{over};
ghost use Rattle.refusal.specs.Checks.{is_mode, is_lead};
ghost use Rattle.tone_range.specs.Range.{first_bad_tone};
ghost use Rattle.block_decoder.specs.Decoding.{codes_of, unless_unclear, heard_into};
ghost use Rattle.delivery.specs.Delivery.{delivery};
ghost use Rattle.message_encoder.specs.Blocks.{longest, is_whole};
ghost use Rattle.message_decoder.specs.Decoding.{heard_characters, decode_message, message_decoded_into};

use message_encoder::LONGEST;
use refusal::{Reason, Refusal, checks};

// Decodes blocks of 64 tones to their text, at the front of text. Every block is decided before anything is written.
pub fn decode_message(
    mode: u32,
    least_lead: u32,
    tones: &[u16],
    text: &mut [u8],
) -> Result<usize, Refusal>
    ensures answer { result ≡ decode_message longest mode least_lead tones.now (length text.old) }
    ensures output { text.new ≡ message_decoded_into longest mode least_lead tones.now text.old }
{
    // LONGEST, and at most 7 that fill the last block.
    let mut codes = [0u8; 1031];
    decode_within(LONGEST, mode, least_lead, tones, &mut codes, text)
}

// Decodes a text of at most limit codes. The codes of all blocks go over codes first, which is left open, and the text over
// text when every block is decided.
fn decode_within(
    limit: usize,
    mode: u32,
    least_lead: u32,
    tones: &[u16],
    codes: &mut [u8],
    text: &mut [u8],
) -> Result<usize, Refusal>
    requires limit { limit ≤ longest }
    requires room { limit + 7 ≤ length codes.old }
    ensures answer { result ≡ decode_message limit mode least_lead tones.now (length text.old) }
    ensures output { text.new ≡ message_decoded_into limit mode least_lead tones.now text.old }
{
    let b = checks::check_mode(mode)?;
    checks::check_lead(least_lead)?;
    if !is_whole(limit, b, tones.len()) {
        return Err(Refusal::at(Reason::ToneCount, 0));
    }
    let count = tones.len() / 64;
    if text.len() < count * b {
        return Err(Refusal::at(Reason::Room, 0));
    }
    if let Some(bad) = tone_range::check(checks::tone_count(mode), tones).bad {
        return Err(Refusal::at(Reason::Tone, bad));
    }
    let total = collect(mode, least_lead, count, tones, codes)?;
    deliver(limit, b, &codes[..total], text)
}

// Whether a count of tones is that of whole blocks, no more than limit codes take.
fn is_whole(limit: usize, mode: usize, count: usize) -> bool
    requires { (limit ≤ longest) × (1 ≤ mode) }
    ensures { result ≡ is_whole limit mode count }
{
    count.is_multiple_of(64) && count <= 64 * limit.div_ceil(mode)
}

// Decides the blocks, one after the other. Their codes go over the front of codes, which a refusal leaves written in part.
fn collect(
    mode: u32,
    least_lead: u32,
    count: usize,
    tones: &[u16],
    codes: &mut [u8],
) -> Result<usize, Refusal>
    requires settings { (is_mode mode ≡ true) × (is_lead least_lead ≡ true) }
    requires whole { length tones.now ≡ 64 * count }
    requires range { length tones.now ≤ first_bad_tone (2 ^ mode) tones.now }
    requires room { count * mode ≤ length codes.old }
    ensures answer { result ≡ unless_unclear least_lead (heard_characters mode tones.now count) (Ok (count * mode)) }
    ensures output { result ≡ Ok (count * mode) → codes.new ≡ over (codes_of (heard_characters mode tones.now count)) codes.old }
{
    let b = mode as usize;
    for k in 0..count {
        let at = k * b;
        let block = &tones[64 * k..64 * k + 64];
        let answer = checked_block::decode(mode, least_lead, block, &mut codes[at..at + b]);
        // `map_err` and `?` leave open what the search finds no proof of: that the closure's sum fits, and which refusal passes through both.
        if let Err(unclear) = answer {
            return Err(Refusal::unclear(at + unclear.place, unclear.lead));
        }
    }
    Ok(count * b)
}

// Judges the codes of accepted blocks and writes their text.
fn deliver(limit: usize, mode: usize, codes: &[u8], text: &mut [u8]) -> Result<usize, Refusal>
    requires { length codes.now ≤ length text.old }
    ensures answer { result ≡ delivery limit mode codes.now }
    ensures output { text.new ≡ heard_into (delivery limit mode codes.now) codes.now text.old }
{
    let n = delivery::judge(limit, mode, codes)?;
    put_text(n, codes, text);
    Ok(n)
}

// The first n codes, over the front of text. Code by code: `copy_from_slice` makes a C library that asks for `memmove`.
fn put_text(n: usize, codes: &[u8], text: &mut [u8])
    requires { (n ≤ length codes.now) × (n ≤ length text.old) }
    ensures { text.new ≡ over (take n codes.now) text.old }
{
    for i in 0..n {
        text[i] = codes[i];
    }
}
