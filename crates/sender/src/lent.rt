// The calls on a state that the caller lends. What is no state, by its size, has no block waiting and takes none.
ghost use Rattle.std.specs.Prelude.{◌<◌, ◌≤◌, length};
ghost use Rattle.sender.specs.State.{counts_in, filled};
ghost use Rattle.sender.specs.Sending.{HandedIn, HandedToAny, SentFrom, SentFromAny};
ghost use Rattle.sender.specs.Internal.{Stored, TakenOut, ServedFrom};

use super::{COUNTS, FILLED, SIZE, Served, TURN, counts, places};
use refusal::{Reason, Refusal};

// A depot hands in a block.
pub fn hand_in(state: &mut [u8], depot: u32, mode: u32, codes: &[u8]) -> Result<(), Refusal>
    ensures run { HandedIn state.old depot (record { mode = mode; codes = codes.now }) result state.new }
    ensures any { HandedToAny state.old depot (record { mode = mode; codes = codes.now }) result state.new }
{
    let Some(state) = state.as_mut_array::<SIZE>() else {
        return Err(Refusal::at(Reason::Room, 0));
    };
    counts::judge(state, depot, mode, codes)?;
    store(state, depot as u8, mode as u8, codes);
    Ok(())
}

// A block more. No run of calls fills more than the 150 places: a state that says it has as many stays as it is.
fn store(state: &mut [u8; SIZE], depot: u8, mode: u8, codes: &[u8])
    requires { (depot < 30) × (counts_in state.old depot < 8) × (length codes.now ≤ 8) }
    ensures { Stored state.old depot (record { mode = mode; codes = codes.now }) state.new }
{
    let count = state[FILLED];
    if count < 150 {
        places::put(state, usize::from(count), depot, mode, codes);
        state[COUNTS + usize::from(depot)] += 1;
        state[FILLED] = count + 1;
    }
}

// Sends the oldest block of the first depot with one, looking from the turn on.
pub fn send(state: &mut [u8], tones: &mut [u16]) -> Result<Option<Served>, Refusal>
    ensures run { SentFrom state.old tones.old result tones.new state.new }
    ensures any { SentFromAny state.old tones.old result tones.new state.new }
{
    if tones.len() < 64 {
        return Err(Refusal::at(Reason::Room, 0));
    }
    let Some(state) = state.as_mut_array::<SIZE>() else {
        return Ok(None);
    };
    let turn = usize::from(state[TURN]) % 30;
    let Some(ahead) = counts::ahead(state, turn) else {
        return Ok(None);
    };
    Ok(serve(state, (turn + ahead) % 30, tones))
}

// Sends the oldest block of a depot with one. Where a state that no run of calls leaves has no place for it, or one that the encoder refuses,
// nothing is sent.
fn serve(state: &mut [u8; SIZE], depot: usize, tones: &mut [u16]) -> Option<Served>
    requires { (depot < 30) × (0 < counts_in state.old depot) × (64 ≤ length tones.old) }
    ensures { ServedFrom state.old depot tones.old result tones.new state.new }
{
    let count = usize::from(state[FILLED]);
    if 150 < count {
        return None;
    }
    let at = places::place_of(state, count, depot as u8)?;
    let mode = u32::from(state[10 * at + 1]);
    let from = 10 * at + 2;
    let to = from + places::code_count(mode);
    let Ok(_) = block_encoder::encode_block(mode, &state[from..to], tones) else {
        return None;
    };
    take_out(state, depot, at);
    Some(Served {
        depot: depot as u32,
        mode,
    })
}

// Without the block of a place, whose depot was served last. The count is read here anew: if `serve` passes it, the search in it takes two
// instructions more, of six, for each place.
fn take_out(state: &mut [u8; SIZE], depot: usize, at: usize)
    requires state { filled state.old ≤ 150 }
    requires block { (depot < 30) × (0 < counts_in state.old depot) × (at < filled state.old) }
    ensures { TakenOut state.old depot at state.new }
{
    let count = usize::from(state[FILLED]);
    places::remove(state, at, count);
    state[COUNTS + depot] -= 1;
    state[FILLED] = (count - 1) as u8;
    state[TURN] = ((depot + 1) % 30) as u8;
}
