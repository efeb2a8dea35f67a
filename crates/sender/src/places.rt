// What the calls do with the places.
ghost use Rattle.std.specs.Prelude.{◌≡◌, ◌<◌, ◌≤◌, min, length, IfSome};
ghost use Rattle.lists.specs.Found.{found};
ghost use Rattle.sender.specs.Internal.{place_with, Put, Removed};

use super::SIZE;

// Writes a block into a place. Codes past the block's stay as they are. Code by code: for so few `copy_from_slice` is slower, by 38 instructions of
// 80 where there is one code, and by 9 of 132 where there are eight.
pub fn put(state: &mut [u8; SIZE], place: usize, depot: u8, mode: u8, codes: &[u8])
    requires { (place < 150) × (length codes.now ≤ 8) }
    ensures { Put state.old place depot (record { mode = mode; codes = codes.now }) state.new }
{
    for q in 0..codes.len() {
        state[10 * place + 2 + q] = codes[q];
    }
    state[10 * place] = depot;
    state[10 * place + 1] = mode;
}

// How many codes of a place are its block's. No place has more than 8, and no mode either.
pub fn code_count(mode: u32) -> usize
    ensures { result ≡ min mode 8 }
{
    mode.min(8) as usize
}

// The first of the count places with a block of the depot, if there is one. A loop: `find` over the range takes two instructions more, of six, for
// each place that is passed.
pub fn place_of(state: &[u8; SIZE], count: usize, depot: u8) -> Option<usize>
    requires { count ≤ 150 }
    ensures place { result ≡ found count (place_with depot state.now count) }
    ensures below { IfSome result (λ at. at < count) }
{
    for i in 0..count {
        if state[10 * i] == depot {
            return Some(i);
        }
    }
    None
}

// Moves the places after one of them up. Byte by byte: `copy_within` makes a C library that asks for `memmove`.
pub fn remove(state: &mut [u8; SIZE], at: usize, count: usize)
    requires { (at < count) × (count ≤ 150) }
    ensures { Removed at count state.old state.new }
{
    for j in 10 * at..10 * (count - 1) {
        state[j] = state[j + 10];
    }
}
