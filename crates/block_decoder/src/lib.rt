// One block of the published chain, decoded: document 01, "Hearing a block", and document 02, order 3.
#![tactic(auto)]

ghost use Rattle.std.specs.Prelude.{◌≡◌, ℕ, ◌≤◌, length};
ghost use Rattle.block_decoder.specs.Decoding.{heard_weight, heard_weights, weighted_of, codes_of, heard_block, decode_block, decode_weighted, heard_into, decoded_into, weighted_into};
ghost use Rattle.block_decoder.specs.Internal.{listened, judgement_in};

use chain::{MISSING, interleaver};
use decision::{Character, NONE};
use refusal::{Reason, Refusal, checks};

mod decode;

// The greatest weight that a board sends: document 02, order 3.
pub const GREATEST_WEIGHT: u8 = 15;

// The weight of every symbol in plain hearing.
pub const PLAIN_WEIGHT: u8 = 1;

// The answer, and the decisions on the mode's characters that it rests on, also where that is refusal 10; the rest of the eight are NONE.
#[derive(Clone, Copy)]
pub struct BlockDecoded {
    pub answer: Result<usize, Refusal>,
    pub characters: [Character; 8],
}

// Decodes 64 tones to the mode's codes, at the front of codes.
pub fn decode_block(mode: u32, least_lead: u32, tones: &[u16], codes: &mut [u8]) -> BlockDecoded
    ensures answer { result ≡ decode_block mode least_lead tones.now (length codes.old) }
    ensures output { codes.new ≡ decoded_into mode least_lead tones.now codes.old }
{
    let weights = [PLAIN_WEIGHT; 64];
    let room = codes.len();
    hear(PLAIN_WEIGHT, mode, least_lead, tones, &weights, room, codes)
}

// Decodes 64 tones with a weight from 0 to 15 for each; the set lead is 1 to 960.
pub fn decode_weighted(
    mode: u32,
    least_lead: u32,
    tones: &[u16],
    weights: &[u8],
    codes: &mut [u8],
) -> BlockDecoded
    ensures answer { result ≡ decode_weighted mode least_lead tones.now weights.now (length codes.old) }
    ensures output { codes.new ≡ weighted_into mode least_lead tones.now weights.now codes.old }
{
    let room = codes.len();
    hear(
        GREATEST_WEIGHT,
        mode,
        least_lead,
        tones,
        weights,
        room,
        codes,
    )
}

// What decoding answers for an output of room codes; nothing is written.
pub fn decide_block(mode: u32, least_lead: u32, tones: &[u16], room: usize) -> BlockDecoded
    ensures { result ≡ decode_block mode least_lead tones.now room }
{
    let weights = [PLAIN_WEIGHT; 64];
    let mut codes = [0u8; 8];
    hear(
        PLAIN_WEIGHT,
        mode,
        least_lead,
        tones,
        &weights,
        room,
        &mut codes,
    )
}

// The answer for an output of room codes, where weights are 0 to greatest. A text goes to the front of codes.
fn hear(
    greatest: u8,
    mode: u32,
    least_lead: u32,
    tones: &[u16],
    weights: &[u8],
    room: usize,
    codes: &mut [u8],
) -> BlockDecoded
    requires { (greatest ≤ 15) × ((n : ℕ) → n ≤ 8 → n ≤ room → n ≤ length codes.old) }
    ensures answer { result ≡ heard_block greatest mode least_lead tones.now weights.now room }
    ensures output { codes.new ≡ heard_into (heard_block greatest mode least_lead tones.now weights.now room).answer (codes_of (weighted_of mode tones.now weights.now)) codes.old }
{
    match listen(greatest, mode, least_lead, tones, weights, room) {
        Ok(characters) => {
            let answer = judge(mode as usize, least_lead, characters);
            if let Ok(count) = answer {
                decode::put_codes(count, characters, codes);
            }
            BlockDecoded { answer, characters }
        }
        Err(refusal) => BlockDecoded {
            answer: Err(refusal),
            characters: [NONE; 8],
        },
    }
}

// The decisions on the mode's characters, or the refusal before any is decided. Called, and not put into the code of its caller, it takes up to
// 30 instructions more.
#[inline(always)]
fn listen(
    greatest: u8,
    mode: u32,
    least_lead: u32,
    tones: &[u16],
    weights: &[u8],
    room: usize,
) -> Result<[Character; 8], Refusal>
    requires { greatest ≤ 15 }
    ensures { result ≡ listened greatest mode least_lead tones.now weights.now room }
{
    let b = checks::check_mode(mode)?;
    checks::check_lead_at(greatest, least_lead)?;
    let Some(tones) = tones.as_array::<64>() else {
        return Err(Refusal::at(Reason::ToneCount, 0));
    };
    let Some(weights) = weights.as_array::<64>() else {
        return Err(Refusal::at(Reason::ToneCount, 0));
    };
    if room < b {
        return Err(Refusal::at(Reason::Room, 0));
    }
    let mut symbols = [0u8; 64];
    if let Some(bad) = decode::look(checks::tone_count(mode), tones, &mut symbols) {
        return Err(Refusal::at(Reason::Tone, bad));
    }
    if let Some(bad) = weight_range::first_bad_weight(greatest, weights) {
        return Err(Refusal::at(Reason::Weight, bad));
    }
    let heard = heard_weights(tones, weights);
    let values = interleaver::values(mode);
    Ok(characters::decide(mode, 0, &values, &symbols, &heard))
}

// The weights that 64 tones count with.
pub fn heard_weights(tones: &[u16; 64], weights: &[u8; 64]) -> [u8; 64]
    ensures { result ≡ heard_weights tones.now weights.now }
{
    let mut heard = [0u8; 64];
    for t in 0..64 {
        heard[t] = heard_weight(tones[t], weights[t]);
    }
    heard
}

// The weight that a tone counts with: a missing one has none, whatever was sent.
pub fn heard_weight(tone: u16, weight: u8) -> u8
    ensures { result ≡ heard_weight tone weight }
{
    if tone == MISSING { 0 } else { weight }
}

// The mode, or the refusal of the lowest of its characters whose lead is under least_lead.
fn judge(mode: usize, least_lead: u32, characters: [Character; 8]) -> Result<usize, Refusal>
    requires { mode ≤ 8 }
    ensures { result ≡ judgement_in mode least_lead characters }
{
    for q in 0..mode {
        let character = characters[q];
        if character.lead < least_lead {
            return Err(Refusal::unclear(q, character.lead));
        }
    }
    Ok(mode)
}
