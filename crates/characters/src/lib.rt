// The decisions on a block's characters, and their energies, by its symbols, none of which is missing, and a weight for each: interleaver and key
// undone.
#![tactic(auto)]

ghost use Rattle.std.specs.Prelude.{◌≡◌, ◌<◌, replicate};
ghost use Rattle.lists.specs.Lists.{tab, over};
ghost use Rattle.decision.specs.Decision.{none};
ghost use Rattle.characters.specs.Symbols.{symbol_characters, symbol_energies};
ghost use Rattle.characters.specs.Internal.{sign_by, table_sign};

use chain::scrambler;
use decision::{Character, NONE};
use refusal::checks;
use std::array;

// Decides the mode's characters, one after the other, up to the first whose lead is under least_lead, and that one too. The values are those of
// the places in a symbol, and of a weight the lowest four bits count. The rest of the eight are NONE, and all of them if there is no such mode.
pub fn decide(
    mode: u32,
    least_lead: u32,
    values: &[u8; 72],
    symbols: &[u8; 64],
    weights: &[u8; 64],
) -> [Character; 8]
    ensures { result ≡ over (symbol_characters mode least_lead values.now symbols.now weights.now) (replicate 8 none) }
{
    let mut characters = [NONE; 8];
    if !checks::is_mode(mode) {
        return characters;
    }
    let keys = scrambler::keys();
    let b = mode as usize;
    for q in 0..b {
        let signs = signs(q, &keys, values, symbols);
        let character = lead_finder::decide(signs, weights);
        characters[q] = character;
        if character.lead < least_lead {
            return characters;
        }
    }
    characters
}

// The sums of the squares of the mode's characters' correlations, those by which `decide` decides. The rest of the eight are 0, and all of them if
// there is no such mode.
pub fn energies(mode: u32, values: &[u8; 72], symbols: &[u8; 64], weights: &[u8; 64]) -> [u32; 8]
    ensures { result ≡ over (symbol_energies mode values.now symbols.now weights.now) (replicate 8 0) }
{
    let mut energies = [0u32; 8];
    if !checks::is_mode(mode) {
        return energies;
    }
    let keys = scrambler::keys();
    let b = mode as usize;
    for q in 0..b {
        energies[q] = lead_finder::energy(signs(q, &keys, values, symbols), weights);
    }
    energies
}

// The signs of the 64 symbols for character q.
fn signs(q: usize, keys: &[u8; 64], values: &[u8; 72], symbols: &[u8; 64]) -> [bool; 64]
    requires { q < 8 }
    ensures { result ≡ tab (table_sign keys.now values.now symbols.now q) 64 }
{
    array::from_fn(|t| sign((keys[t] >> q) % 2 == 1, values[q + t], symbols[t]))
}

// The bit that has this value in a symbol, XORed with key; bit 1 is a minus.
fn sign(key: bool, value: u8, symbol: u8) -> bool
    ensures { result ≡ sign_by key value symbol }
{
    let bit = symbol & value != 0;
    bit != key
}
