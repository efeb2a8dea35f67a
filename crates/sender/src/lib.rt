// Thirty depots hand blocks to one transmitter, which sends them in turn: document 02, order 7.
#![tactic(auto)]

ghost use Rattle.sender.specs.Queues.{new};
ghost use Rattle.sender.specs.State.{Holds};
ghost use Rattle.sender.specs.Sending.{HandedIn, HandedToAny, SentFrom, SentFromAny};

use refusal::Refusal;

mod counts;
pub mod lent;
mod places;

// The depot that was served, and the mode of its block.
#[derive(Clone, Copy, Debug, PartialEq, Eq)]
pub struct Served {
    pub depot: u32,
    pub mode: u32,
}

// Where the parts of a state begin, after 150 places of 10 bytes: the depots' counts, the count of filled places, and the turn.
const COUNTS: usize = 1500;

const FILLED: usize = 1530;

const TURN: usize = 1531;

// The size of a state.
pub const SIZE: usize = 1532;

// The state of a sender, in bytes. A place is a waiting block's depot, its mode and up to 8 codes. The filled places come first, in the order
// in which the blocks were handed in. Behind the places stands how many blocks each depot has waiting, how many places are filled, and the
// depot that the next send looks at first.
// They are bytes and no struct of places, since olivia.h lends the caller's bytes to the calls, in this layout.
#[repr(C)]
#[derive(Clone, Copy)]
pub struct Sender {
    pub bytes: [u8; SIZE],
}

// The answer to a block handed in, and the state for the next call.
#[derive(Clone, Copy)]
pub struct AfterHandIn {
    pub answer: Result<(), Refusal>,
    pub sender: Sender,
}

// The same, of a send: who is served, or None if no depot has a block waiting.
#[derive(Clone, Copy)]
pub struct AfterSend {
    pub answer: Result<Option<Served>, Refusal>,
    pub sender: Sender,
}

impl Sender {
    // A sender with nothing waiting.
    pub fn new() -> Sender
        ensures { Holds new result.bytes }
    {
        Sender { bytes: [0; SIZE] }
    }

    // A depot hands in a block. By value, for callers in Rattle; `lent` is for those that lend the bytes, C among them.
    pub fn hand_in(self, depot: u32, mode: u32, codes: &[u8]) -> AfterHandIn
        ensures run { HandedIn self.bytes depot (record { mode = mode; codes = codes.now }) result.answer result.sender.bytes }
        ensures any { HandedToAny self.bytes depot (record { mode = mode; codes = codes.now }) result.answer result.sender.bytes }
    {
        let mut bytes = self.bytes;
        let answer = lent::hand_in(&mut bytes, depot, mode, codes);
        AfterHandIn {
            answer,
            sender: Sender { bytes },
        }
    }

    // Sends the oldest block of the first depot with one, looking from the turn on.
    pub fn send(self, tones: &mut [u16]) -> AfterSend
        ensures run { SentFrom self.bytes tones.old result.answer tones.new result.sender.bytes }
        ensures any { SentFromAny self.bytes tones.old result.answer tones.new result.sender.bytes }
    {
        let mut bytes = self.bytes;
        let answer = lent::send(&mut bytes, tones);
        AfterSend {
            answer,
            sender: Sender { bytes },
        }
    }
}
