// The word of greatest magnitude, its runner-up and the lead, found by keys. The passes stand apart, since the compiler makes vector code of
// each: in one pass, they take some 130 instructions a character more.
ghost use Rattle.std.specs.Prelude.{◌≡◌, ◌+◌, ◌-◌, ◌*◌, ◌%◌, ◌<◌, ◌≤◌, nat_abs};
ghost use Rattle.lists.specs.Lists.{tab, at};
ghost use Rattle.walsh.specs.Internal.{Within};
ghost use Rattle.decision.specs.Decision.{negative, code_of, decision};
ghost use Rattle.lead_finder.specs.Internal.{key_of, largest};

use decision::Character;
use std::array;

// With 0 in place of the largest key the next largest is the runner-up's: 0 is the key of word 63 at magnitude 0 alone, and 62 words are
// left whose keys are larger.
pub fn find(correlations: [i32; 64]) -> Character
    requires { Within 960 correlations }
    ensures { result ≡ decision (at correlations) }
{
    let mut keys = keys(correlations);
    let first = largest(&keys);
    let word = word_of(first);
    keys[word] = 0;
    let second = largest(&keys);
    let next = word_of(second);
    let lead = first / 64 - second / 64;
    let correlation = correlations[word];
    let next_correlation = correlations[next];
    Character {
        code: code_of(word, correlation),
        lead: u32::from(lead),
        word: word as u32,
        correlation,
        next: next as u32,
        next_correlation,
    }
}

// The keys of the words: one number for magnitude and word, so that the largest key is that of the best word, the lowest-numbered among
// equals. They are at most 960 * 64 + 63, so 16 bits hold each.
fn keys(correlations: [i32; 64]) -> [u16; 64]
    requires { Within 960 correlations }
    ensures { result ≡ tab (key_of (at correlations)) 64 }
{
    let magnitudes = magnitudes(narrowed(correlations));
    array::from_fn(|word| key(magnitudes[word], word))
}

fn key(magnitude: u16, word: usize) -> u16
    requires { (magnitude ≤ 960) × (word < 64) }
    ensures { result ≡ magnitude * 64 + (63 - word) }
{
    magnitude * 64 + (63 - word as u16)
}

fn word_of(key: u16) -> usize
    ensures { result ≡ 63 - key % 64 }
{
    usize::from(63 - key % 64)
}

fn magnitudes(numbers: [i16; 64]) -> [u16; 64]
    requires { Within 960 numbers }
    ensures { result ≡ tab (λ i. nat_abs (at numbers i)) 64 }
{
    array::from_fn(|i| magnitude(numbers[i]))
}

// By negation, as document 01 asks, and not by `unsigned_abs`, which takes as many instructions.
fn magnitude(number: i16) -> u16
    requires { nat_abs number ≤ 960 }
    ensures { result ≡ nat_abs number }
{
    if number < 0 {
        (-number) as u16
    } else {
        number as u16
    }
}

fn narrowed(correlations: [i32; 64]) -> [i16; 64]
    requires { Within 960 correlations }
    ensures { result ≡ correlations }
{
    array::from_fn(|i| narrow(correlations[i]))
}

// The same number in 16 bits. The limits, which it is within, are those of the instruction that narrows eight numbers at once.
fn narrow(number: i32) -> i16
    requires { nat_abs number ≤ 960 }
    ensures { result ≡ number }
{
    number.clamp(-32768, 32767) as i16
}

// The largest of the keys. By place: with the library's `max`, one of the two uses is no vector code in the listing program, which takes 137
// instructions a character more.
fn largest(keys: &[u16; 64]) -> u16
    ensures { result ≡ largest keys.now }
{
    let mut most = 0;
    for word in 0..64 {
        if most < keys[word] {
            most = keys[word];
        }
    }
    most
}

fn code_of(word: usize, correlation: i32) -> u8
    requires { word < 64 }
    ensures { result ≡ code_of word (negative correlation) }
{
    if correlation < 0 {
        (word + 64) as u8
    } else {
        word as u8
    }
}
