// The places of a block's characters in its symbols: the bit of character q at t is bit (q + t) mod b of symbol t.
ghost use Rattle.std.specs.Prelude.{◌≡◌, ◌≤◌, take};
ghost use Rattle.lists.specs.Lists.{tab};
ghost use Rattle.chain.specs.Tables.{place_value, place_values};
ghost use Rattle.chain.specs.Internal.{WholeRounds, again};

use refusal::checks;

// The values of the places, round and round: that of character q in symbol t is entry q + t. All are 0 if there is no such mode.
pub fn values(mode: u32) -> [u8; 72]
    ensures { result ≡ place_values mode }
{
    if !checks::is_mode(mode) {
        return [0u8; 72];
    }
    let b = mode as usize;
    front(rows(step(b), row(b)))
}

// The values of the first eight places of each mode.
const ROWS: [[u8; 8]; 8] = [
    [1, 1, 1, 1, 1, 1, 1, 1],
    [1, 2, 1, 2, 1, 2, 1, 2],
    [1, 2, 4, 1, 2, 4, 1, 2],
    [1, 2, 4, 8, 1, 2, 4, 8],
    [1, 2, 4, 8, 16, 1, 2, 4],
    [1, 2, 4, 8, 16, 32, 1, 2],
    [1, 2, 4, 8, 16, 32, 64, 1],
    [1, 2, 4, 8, 16, 32, 64, 128],
];

// The values of the first eight places.
fn row(b: usize) -> [u8; 8]
    requires { (1 ≤ b) × (b ≤ 8) }
    ensures { result ≡ tab (place_value b) 8 }
{
    ROWS[b - 1]
}

// The whole rounds of b places in eight: a row fits on again so many places further.
fn step(b: usize) -> usize
    requires { (1 ≤ b) × (b ≤ 8) }
    ensures { WholeRounds b result }
{
    if b == 3 {
        return 6;
    }
    if b < 5 { 8 } else { b }
}

// Row after row, each over the tail of the one before: eight places at a time go faster than one.
fn rows(step: usize, row: [u8; 8]) -> [u8; 80]
    requires { (1 ≤ step) × (step ≤ 8) }
    ensures { take 72 result ≡ again step row 72 }
{
    let mut values = [0u8; 80];
    // A `step_by` takes an instruction more for each row, 1.2 % of encoding a block at mode 1.
    let mut at = 0;
    while at < 72 {
        values[at..at + 8].copy_from_slice(&row);
        at += step;
    }
    values
}

// The first 72; what stands past them is no whole row.
fn front(all: [u8; 80]) -> [u8; 72]
    ensures { result ≡ take 72 all }
{
    let mut values = [0u8; 72];
    values.copy_from_slice(&all[..72]);
    values
}
