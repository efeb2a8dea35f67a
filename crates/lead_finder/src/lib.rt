// The lead finder: the decision on one character, from the sign and the weight of what each symbol counts.
#![tactic(auto)]

ghost use Rattle.std.specs.Prelude.{◌≡◌, ◌%◌, pos};
ghost use Rattle.lists.specs.Lists.{tab};
ghost use Rattle.walsh.specs.Words.{signed, corr};
ghost use Rattle.walsh.specs.Energy.{energy};
ghost use Rattle.decision.specs.Decision.{decision};
ghost use Rattle.lead_finder.specs.Counts.{count_at};

use decision::Character;
use std::array;

mod keys;

// The decision on one character. A weight is taken by its lowest four bits, so that no correlation is above 64 * 15 in magnitude.
pub fn decide(signs: [bool; 64], weights: &[u8; 64]) -> Character
    ensures { result ≡ decision (corr (count_at signs weights.now)) }
{
    keys::find(walsh::correlations(counts(signs, weights)))
}

// The sum of the squares of the correlations that such a decision is by.
pub fn energy(signs: [bool; 64], weights: &[u8; 64]) -> u32
    ensures { result ≡ energy (corr (count_at signs weights.now)) }
{
    walsh::energy(counts(signs, weights))
}

fn counts(signs: [bool; 64], weights: &[u8; 64]) -> [i8; 64]
    ensures { result ≡ tab (count_at signs weights.now) 64 }
{
    array::from_fn(|t| count(signs[t], weights[t]))
}

fn count(minus: bool, weight: u8) -> i8
    ensures { result ≡ signed minus (pos (weight % 16)) }
{
    let size = (weight % 16) as i8;
    if minus { -size } else { size }
}
