// The energy of a block's characters, a check that needs no text: document 02, order 13.
#![tactic(auto)]

ghost use Rattle.std.specs.Prelude.{◌≡◌, ◌⊎◌, ℕ, ◌*◌, ◌<◌, ◌≤◌};
ghost use Rattle.lists.specs.Lists.{tab, num};
ghost use Rattle.lists.specs.Sums.{total};
ghost use Rattle.chain.specs.Chain.{missing_mark};
ghost use Rattle.chain.specs.Tables.{symbol_of};
ghost use Rattle.tone_range.specs.Range.{HasTones};
ghost use Rattle.block_decoder.specs.Internal.{seen_symbol};
ghost use Rattle.energy.specs.Internal.{heard_of, listened};
ghost use Rattle.energy.specs.Energies.{heard_energies, block_energies, weighted_energies};

use block_decoder::{GREATEST_WEIGHT, PLAIN_WEIGHT};
use chain::{MISSING, gray, interleaver};
use refusal::{Reason, Refusal, checks};

// What each of the sums equals, or the refusal; and for each of the mode's characters the sum of its 64 squared correlations. The rest of the
// eight are 0, and all are on a refusal.
#[derive(Clone, Copy)]
pub struct Energies {
    pub answer: Result<u32, Refusal>,
    pub sums: [u32; 8],
}

#[derive(Clone, Copy)]
struct Heard {
    symbols: [u8; 64],
    weights: [u8; 64],
}

// The energies of 64 tones.
pub fn of_block(mode: u32, tones: &[u16]) -> Energies
    ensures { result ≡ block_energies mode tones.now }
{
    let weights = [PLAIN_WEIGHT; 64];
    of_heard(PLAIN_WEIGHT, mode, tones, &weights)
}

// The energies of 64 tones with a weight from 0 to 15 for each.
pub fn of_weighted(mode: u32, tones: &[u16], weights: &[u8]) -> Energies
    ensures { result ≡ weighted_energies mode tones.now weights.now }
{
    of_heard(GREATEST_WEIGHT, mode, tones, weights)
}

// The energies where weights are 0 to greatest.
fn of_heard(greatest: u8, mode: u32, tones: &[u16], weights: &[u8]) -> Energies
    requires { greatest ≤ 15 }
    ensures { result ≡ heard_energies greatest mode tones.now weights.now }
{
    match listen(greatest, mode, tones, weights) {
        Ok(heard) => {
            let symbols = heard.symbols;
            let weights = heard.weights;
            let values = interleaver::values(mode);
            Energies {
                answer: Ok(total(&weights)),
                sums: characters::energies(mode, &values, &symbols, &weights),
            }
        }
        Err(refusal) => Energies {
            answer: Err(refusal),
            sums: [0; 8],
        },
    }
}

// What is heard of the tones, or the refusal. `block_decoder` has more checks, between these.
fn listen(greatest: u8, mode: u32, tones: &[u16], weights: &[u8]) -> Result<Heard, Refusal>
    requires { greatest ≤ 15 }
    ensures { result ≡ listened greatest mode tones.now weights.now }
{
    checks::check_mode(mode)?;
    let Some(tones) = tones.as_array::<64>() else {
        return Err(Refusal::at(Reason::ToneCount, 0));
    };
    let Some(weights) = weights.as_array::<64>() else {
        return Err(Refusal::at(Reason::ToneCount, 0));
    };
    let range = tone_range::check(checks::tone_count(mode), tones);
    if let Some(bad) = range.bad {
        return Err(Refusal::at(Reason::Tone, bad));
    }
    if let Some(bad) = weight_range::first_bad_weight(greatest, weights) {
        return Err(Refusal::at(Reason::Weight, bad));
    }
    Ok(hear(tones, weights))
}

fn symbol(table: &[u8; 256], tone: u16) -> u8
    requires { (table.now ≡ tab symbol_of 256) × ((tone < 256) ⊎ (tone ≡ missing_mark)) }
    ensures { result ≡ seen_symbol tone }
{
    if tone == MISSING {
        0
    } else {
        table[usize::from(tone)]
    }
}

// What is heard of 64 tones: the symbol of each and the weight that it counts with, both 0 for a missing one. `block_decoder` has a faster form for
// the symbols, which asks for a limit of 256 at most, so that no other crate may call it.
fn hear(tones: &[u16; 64], weights: &[u8; 64]) -> Heard
    requires { HasTones 256 tones.now }
    ensures { result ≡ heard_of tones.now weights.now }
{
    let table = gray::symbols();
    let mut symbols = [0u8; 64];
    for t in 0..64 {
        symbols[t] = symbol(&table, tones[t]);
    }
    Heard {
        symbols,
        weights: block_decoder::heard_weights(tones, weights),
    }
}

fn squared(weight: u8) -> u32
    ensures { result ≡ weight * weight }
{
    let weight = u32::from(weight);
    weight * weight
}

// 64 times the sum of the squared weights.
fn total(weights: &[u8; 64]) -> u32
    requires { (t : ℕ) → t < 64 → num weights.now t ≤ 15 }
    ensures { result ≡ 64 * total 64 (λ t. num weights.now t * num weights.now t) }
{
    let mut sum: u32 = 0;
    for &weight in weights {
        sum += squared(weight);
    }
    64 * sum
}
