// What the counts of waiting blocks decide: whether a depot may hand in a block, and which is served next.
ghost use Rattle.std.specs.Prelude.{◌≡◌, ◌<◌, ◌≤◌, max};
ghost use Rattle.lists.specs.Found.{found};
ghost use Rattle.sender.specs.Queues.{reserved, place_answer, hand_answer, ahead};
ghost use Rattle.sender.specs.State.{counts_in};

use super::{COUNTS, SIZE};
use refusal::{Reason, Refusal};

// The larger of 4 and a depot's waiting blocks.
fn share(waiting: u32) -> u32
    ensures { result ≡ max 4 waiting }
{
    waiting.max(4)
}

// The sum of all depots' shares.
fn reserved(state: &[u8; SIZE]) -> u32
    ensures { (result ≡ reserved (counts_in state.now)) × (result ≤ 7650) }
{
    let mut sum = 0;
    for d in 0..30 {
        sum += share(u32::from(state[COUNTS + d]));
    }
    sum
}

// Whether a depot may hand in a block more, which makes its share that of one more.
fn place(state: &[u8; SIZE], depot: u32) -> Result<(), Refusal>
    ensures { result ≡ place_answer (counts_in state.now) depot }
{
    if 29 < depot {
        return Err(Refusal::at(Reason::Depot, 0));
    }
    let d = depot as usize;
    let own = u32::from(state[COUNTS + d]);
    if 8 <= own {
        return Err(Refusal::at(Reason::DepotFull, d));
    }
    if 150 + share(own) < reserved(state) + share(own + 1) {
        return Err(Refusal::at(Reason::AllFull, d));
    }
    Ok(())
}

// The answer to a block handed in.
pub fn judge(state: &[u8; SIZE], depot: u32, mode: u32, codes: &[u8]) -> Result<(), Refusal>
    ensures { result ≡ hand_answer (counts_in state.now) depot (record { mode = mode; codes = codes.now }) }
{
    block_encoder::check_codes(mode, codes)?;
    place(state, depot)
}

// How many depots without a block stand before the first with one, from the turn on, if any has one.
pub fn ahead(state: &[u8; SIZE], turn: usize) -> Option<usize>
    requires { turn < 30 }
    ensures { result ≡ found 30 (ahead turn (counts_in state.now)) }
{
    (0..30).find(|&k| 0 < state[COUNTS + (turn + k) % 30])
}
