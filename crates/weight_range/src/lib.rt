// The range check of weights: the first that is too great. Document 02, order 3, refusal 14.
#![tactic(auto)]

ghost use Rattle.std.specs.Prelude.{◌≡◌, ltb, length, position};
ghost use Rattle.lists.specs.Found.{found};
ghost use Rattle.weight_range.specs.Range.{first_bad_weight};

// The lowest place of a weight above greatest, if there is one.
pub fn first_bad_weight(greatest: u8, weights: &[u8]) -> Option<usize>
    ensures { result ≡ found (length weights.now) (first_bad_weight greatest weights.now) }
{
    if has_bad_weight(greatest, weights) {
        first_above(greatest, weights)
    } else {
        None
    }
}

fn first_above(greatest: u8, weights: &[u8]) -> Option<usize>
    ensures { result ≡ position (λ w. ltb greatest w) weights.now }
{
    weights.iter().position(|&weight| greatest < weight)
}

// Whether there is such a weight. Weights without one are common: this loop looks at all, so the compiler makes vector code of it.
fn has_bad_weight(greatest: u8, weights: &[u8]) -> bool
    ensures { result ≡ ltb (first_bad_weight greatest weights.now) (length weights.now) }
{
    let mut found = false;
    for &weight in weights {
        found |= greatest < weight;
    }
    found
}
