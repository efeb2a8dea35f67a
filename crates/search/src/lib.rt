// The search for a block whose start is unknown: document 02, order 1.
#![tactic(auto)]

ghost use Rattle.std.specs.Prelude.{◌≡◌, ◌+◌, ◌≤◌, ◌%◌, length};
ghost use Rattle.lists.specs.Lists.{tab, num, over};
ghost use Rattle.lists.specs.Places.{first};
ghost use Rattle.lists.specs.Found.{found};
ghost use Rattle.refusal.specs.Checks.{IsSet};
ghost use Rattle.chain.specs.Tables.{symbol_of};
ghost use Rattle.checked_block.specs.Checked.{weight_below};
ghost use Rattle.search.specs.Starts.{starts, accepted_at, first_accepted};
ghost use Rattle.search.specs.Internal.{clear_by};

use chain::{gray, interleaver};
use refusal::checks;

// The most tones that a run may have.
pub const LONGEST_RUN: usize = 4096;

// The first start of a run at which 64 tones are accepted, if there is one. A tone that is none of the mode's counts as missing.
pub fn first_accepted(mode: u32, least_lead: u32, run: &[u16]) -> Option<usize>
    ensures { result ≡ found (starts run.now) (first_accepted mode least_lead run.now) }
{
    if run.len() < 64 || LONGEST_RUN < run.len() {
        return None;
    }
    if !checks::is_mode(mode) || !checks::is_lead(least_lead) {
        return None;
    }
    first_clear(mode, least_lead, run)
}

// Symbols, weights and tables are made once for the run, and a start is given up at its first unclear character.
fn first_clear(mode: u32, least_lead: u32, run: &[u16]) -> Option<usize>
    requires settings { IsSet mode least_lead }
    requires count { (64 ≤ length run.now) × (length run.now ≤ 4096) }
    ensures { result ≡ found (starts run.now) (first (accepted_at mode least_lead run.now) (starts run.now)) }
{
    let mut symbols = [0u8; LONGEST_RUN];
    put_symbols(run, &mut symbols);
    let mut weights = [0u8; LONGEST_RUN];
    put_weights(checks::tone_count(mode), run, &mut weights);
    let values = interleaver::values(mode);
    for start in 0..run.len() - 63 {
        let heard = window(start, &symbols);
        let counting = window(start, &weights);
        if is_clear(mode, least_lead, &values, heard, counting) {
            return Some(start);
        }
    }
    None
}

// The symbols of the tones by their lowest eight bits, over the front of symbols. `checked_block` has its own for 64 tones, in rows of 16, which
// takes 80 instructions less a block.
fn put_symbols(run: &[u16], symbols: &mut [u8])
    requires { length run.now ≤ length symbols.old }
    ensures { symbols.new ≡ over (tab (λ t. symbol_of (num run.now t % 256)) (length run.now)) symbols.old }
{
    let table = gray::symbols();
    for t in 0..run.len() {
        symbols[t] = table[usize::from(run[t] % 256)];
    }
}

// The weights of the tones, over the front of weights: as many as the run has, where `checked_block` makes an array of 64.
fn put_weights(limit: u16, run: &[u16], weights: &mut [u8])
    requires { length run.now ≤ length weights.old }
    ensures { weights.new ≡ over (tab (λ t. weight_below limit (num run.now t)) (length run.now)) weights.old }
{
    for t in 0..run.len() {
        weights[t] = checked_block::weight(limit, run[t]);
    }
}

// The 64 numbers from a start on.
fn window(start: usize, numbers: &[u8]) -> &[u8; 64]
    requires { start + 64 ≤ length numbers.now }
    ensures { result.now ≡ tab (λ t. num numbers.now (start + t)) 64 }
{
    numbers[start..start + 64].as_array().unwrap()
}

// Whether the lead of every character of a block is at least least_lead. If not, the last of the mode's is the first whose lead is under it, or
// it was not decided, and its lead is 0.
fn is_clear(
    mode: u32,
    least_lead: u32,
    values: &[u8; 72],
    symbols: &[u8; 64],
    weights: &[u8; 64],
) -> bool
    requires { IsSet mode least_lead }
    ensures { result ≡ clear_by mode least_lead values.now symbols.now weights.now }
{
    let characters = characters::decide(mode, least_lead, values, symbols, weights);
    let last = characters[mode as usize - 1];
    least_lead <= last.lead
}
