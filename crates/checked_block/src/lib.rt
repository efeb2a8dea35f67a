// A block of a message, decoded: its tones were checked before, with all of the message, and its records are not told.
#![tactic(auto)]

ghost use Rattle.std.specs.Prelude.{◌≡◌, true, Ok, ◌+◌, ◌≤◌, ◌^◌, length};
ghost use Rattle.lists.specs.Lists.{tab};
ghost use Rattle.refusal.specs.Checks.{is_mode};
ghost use Rattle.chain.specs.Tables.{symbol_of};
ghost use Rattle.block_decoder.specs.Decoding.{characters_of, codes_of, unless_unclear, heard_into};
ghost use Rattle.checked_block.specs.Checked.{tones_below, weight_below, decode_checked, checked_into};
ghost use Rattle.checked_block.specs.Internal.{symbols_to, weights_below};

use chain::{gray, interleaver};
use refusal::{Reason, Refusal, checks};

pub mod laws;

// Decodes 64 tones to the mode's codes, at the front of codes. A tone that is none of the mode's counts as missing.
pub fn decode(mode: u32, least_lead: u32, tones: &[u16], codes: &mut [u8]) -> Result<usize, Refusal>
    ensures answer { result ≡ decode_checked mode least_lead tones.now (length codes.old) }
    ensures output { codes.new ≡ checked_into mode least_lead tones.now codes.old }
{
    let b = checks::check_mode(mode)?;
    checks::check_lead(least_lead)?;
    let Some(tones) = tones.as_array::<64>() else {
        return Err(Refusal::at(Reason::ToneCount, 0));
    };
    if codes.len() < b {
        return Err(Refusal::at(Reason::Room, 0));
    }
    decide(mode, least_lead, tones, codes)
}

// Decides the characters. Both loops stand here, since a block takes 22 to 28 instructions more with functions that are handed the characters.
fn decide(mode: u32, least_lead: u32, tones: &[u16; 64], codes: &mut [u8]) -> Result<usize, Refusal>
    requires { (is_mode mode ≡ true) × (mode ≤ length codes.old) }
    ensures answer { result ≡ unless_unclear least_lead (characters_of mode (tones_below (2 ^ mode) tones.now)) (Ok mode) }
    ensures output { codes.new ≡ heard_into result (codes_of (characters_of mode (tones_below (2 ^ mode) tones.now))) codes.old }
{
    let mut symbols = [0u8; 64];
    put_symbols(tones, &mut symbols);
    let weights = weights(checks::tone_count(mode), tones);
    let values = interleaver::values(mode);
    let characters = characters::decide(mode, 0, &values, &symbols, &weights);
    let b = mode as usize;
    for q in 0..b {
        let character = characters[q];
        if character.lead < least_lead {
            return Err(Refusal::unclear(q, character.lead));
        }
    }
    for q in 0..b {
        codes[q] = characters[q].code;
    }
    Ok(b)
}

// The symbols of 64 tones by their lowest eight bits. Rows of 16 become straight code.
fn put_symbols(tones: &[u16; 64], symbols: &mut [u8; 64])
    requires { symbols.old ≡ symbols_to tones.now 0 }
    ensures { symbols.new ≡ symbols_to tones.now 64 }
{
    let table = gray::symbols();
    for row in 0..4 {
        put_row(&table, 16 * row, tones, symbols);
    }
}

fn put_row(table: &[u8; 256], from: usize, tones: &[u16; 64], symbols: &mut [u8; 64])
    requires { (table.now ≡ tab symbol_of 256) × (from + 16 ≤ 64) × (symbols.old ≡ symbols_to tones.now from) }
    ensures { symbols.new ≡ symbols_to tones.now (from + 16) }
{
    for t in from..from + 16 {
        symbols[t] = table[usize::from(tones[t] % 256)];
    }
}

// What each tone counts.
fn weights(limit: u16, tones: &[u16; 64]) -> [u8; 64]
    ensures { result ≡ weights_below limit tones.now }
{
    let mut weights = [0u8; 64];
    for t in 0..64 {
        weights[t] = weight(limit, tones[t]);
    }
    weights
}

// What a tone counts: a tone that is none of the mode's counts nothing.
#[tactic(auto, unfolding(crate::specs::Checked::weight_below))]
pub fn weight(limit: u16, tone: u16) -> u8
    ensures { result ≡ weight_below limit tone }
{
    u8::from(tone < limit)
}
