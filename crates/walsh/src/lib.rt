// Walsh words, the fast transform that correlates 64 counts with all of them, and the energy of these correlations.
#![tactic(auto)]

ghost use Rattle.std.specs.Prelude.{◌≡◌, ◌≤◌};
ghost use Rattle.lists.specs.Lists.{at};
ghost use Rattle.walsh.specs.Words.{minus, corr, correlations_of};
ghost use Rattle.walsh.specs.Energy.{energy};
ghost use Rattle.walsh.specs.Internal.{step_of, Within};

use std::array;

pub mod laws;

// Whether a Walsh word has a minus at t; both are taken by their lowest six bits.
pub fn is_minus(word: u64, t: u64) -> bool
    ensures { result ≡ minus word t }
{
    u64::count_ones(word & (!t & 63)) % 2 == 1
}

// The 64 correlations of one character, from its counts. Called, and not put into the code of its callers, it takes some 50 instructions more.
#[inline(always)]
pub fn correlations(counts: [i8; 64]) -> [i32; 64]
    ensures { result ≡ correlations_of (at counts) }
{
    let x = widened(counts);
    let x = two_steps(x);
    let x = two_steps(x);
    two_steps(x)
}

// The sum of the squares of these correlations.
pub fn energy(counts: [i8; 64]) -> u32
    ensures { result ≡ energy (corr (at counts)) }
{
    sum_of_squares(correlations(counts))
}

// Counts of at most 128 in magnitude have squares that add up to at most 64 * 128 * 128, and those of the correlations to 64 times that.
fn sum_of_squares(correlations: [i32; 64]) -> u32
    requires { energy (at correlations) ≤ 67108864 }
    ensures { result ≡ energy (at correlations) }
{
    let mut sum: u32 = 0;
    for word in 0..64 {
        let correlation = correlations[word];
        sum += (correlation * correlation) as u32;
    }
    sum
}

fn widened(counts: [i8; 64]) -> [i32; 64]
    ensures { result ≡ counts }
{
    array::from_fn(|i| i32::from(counts[i]))
}

// Two steps of the transform at once, the same all three times: the constant geometry form. Four numbers, 16 places apart, become four that
// stand side by side. A count is at most 128 in magnitude and a step at most doubles that, so all six stay within 64 * 128.
fn two_steps(x: [i32; 64]) -> [i32; 64]
    requires { Within 2048 x }
    ensures { result ≡ step_of (step_of x) }
{
    let mut y = [0i32; 64];
    for i in 0..16 {
        let first = x[i];
        let second = x[i + 16];
        let third = x[i + 32];
        let fourth = x[i + 48];
        let low_sum = first + second;
        let low_difference = second - first;
        let high_sum = third + fourth;
        let high_difference = fourth - third;
        y[4 * i] = low_sum + high_sum;
        y[4 * i + 1] = low_difference + high_difference;
        y[4 * i + 2] = high_sum - low_sum;
        y[4 * i + 3] = high_difference - low_difference;
    }
    y
}
