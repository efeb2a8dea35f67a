// The refusal that every entry answers with: document 01, "Who can cause a refusal".
#![tactic(auto)]

ghost use Rattle.std.specs.Prelude.{◌≡◌, ◌&&◌, false, leb};

pub mod checks;

// Who can cause a refusal, and by what.
#[derive(Clone, Copy, Debug, PartialEq, Eq)]
pub enum Reason {
    // The installer: the mode is not 1 to 8.
    Mode,
    // The installer: the set lead is not 1 to 64, or with weights not 1 to 960.
    LeastLead,
    // The installer: the width is not one of the five.
    Width,
    // The installer: the centre is above 10,000, or twice the centre is below the width.
    Centre,
    // The writer: a block's count of codes is not the mode's, or a message has too many.
    CodeCount,
    // The writer: a code of 128 or more, in a message also code 0.
    Code,
    // The modem board: a block has not 64 tones, or with weights not 64 of these, a message's count of tones is no multiple of 64 or too large, or a
    // run has not 64 to 4,096.
    ToneCount,
    // The modem board: a tone is neither one of the mode's nor an allowed missing mark.
    Tone,
    // The calling program: the output is too short.
    Room,
    // The air or the far end: a character's lead is below the set lead.
    Unclear,
    // The air or the far end: a message has a 0 before its last nonzero code, or at least a block's count of them after it.
    Zero,
    // The air or the far end: a message's text is too long.
    TooLong,
    // The air or the far end: at no start of a run are 64 tones accepted.
    NotFound,
    // The modem board: a weight is above 15.
    Weight,
    // The bench: a measured frequency is infinite or not a number.
    NotFinite,
    // The bench: a measured frequency lies below the band's lower edge, or at or above its upper.
    OutsideBand,
    // The writer: the depot is not 0 to 29.
    Depot,
    // The writer: the depot has 8 blocks waiting.
    DepotFull,
    // The writer: with the block, the larger of 4 and its waiting blocks would sum to over 150 over all depots.
    AllFull,
    // The log, or the program that writes it: a sentence that is not of the list, or a refusal that has none.
    Sentence,
    // None of these: a refusal that no document has.
    Other(Unused),
}

// A number that no document gives.
#[derive(Clone, Copy, Debug, PartialEq, Eq)]
pub struct Unused {
    pub number: u8,
    ghost unused: { (leb 1 number && leb number 20) ≡ false },
}

impl Reason {
    ghost use Rattle.refusal.specs.Refused.{number_of};

    // The number that the documents give it; of `Other` its own.
    #[tactic(auto, unfolding(crate::specs::Refused::number_of))]
    pub fn number(self) -> u8
        ensures { result ≡ number_of self }
    {
        match self {
            Reason::Mode => 1,
            Reason::LeastLead => 2,
            Reason::Width => 3,
            Reason::Centre => 4,
            Reason::CodeCount => 5,
            Reason::Code => 6,
            Reason::ToneCount => 7,
            Reason::Tone => 8,
            Reason::Room => 9,
            Reason::Unclear => 10,
            Reason::Zero => 11,
            Reason::TooLong => 12,
            Reason::NotFound => 13,
            Reason::Weight => 14,
            Reason::NotFinite => 15,
            Reason::OutsideBand => 16,
            Reason::Depot => 17,
            Reason::DepotFull => 18,
            Reason::AllFull => 19,
            Reason::Sentence => 20,
            Reason::Other(Unused { number }) => number,
        }
    }
}

// The reason that has a number.
impl From<u8> for Reason {
    ghost use Rattle.refusal.specs.Refused.{number_of};

    ghost from_gives = { λ number reason. number_of reason ≡ number };

    #[tactic(auto, unfolding(crate::specs::Refused::number_of))]
    fn from(number: u8) -> Reason {
        match number {
            1 => Reason::Mode,
            2 => Reason::LeastLead,
            3 => Reason::Width,
            4 => Reason::Centre,
            5 => Reason::CodeCount,
            6 => Reason::Code,
            7 => Reason::ToneCount,
            8 => Reason::Tone,
            9 => Reason::Room,
            10 => Reason::Unclear,
            11 => Reason::Zero,
            12 => Reason::TooLong,
            13 => Reason::NotFound,
            14 => Reason::Weight,
            15 => Reason::NotFinite,
            16 => Reason::OutsideBand,
            17 => Reason::Depot,
            18 => Reason::DepotFull,
            19 => Reason::AllFull,
            20 => Reason::Sentence,
            _ => Reason::Other(Unused { number }),
        }
    }
}

// Why, where, and the lead; the lead is 0 but for Unclear. The lead stands beside the reason, since the documents read and write number, place
// and lead of every refusal.
#[derive(Clone, Copy, Debug, PartialEq, Eq)]
pub struct Refusal {
    pub reason: Reason,
    pub place: usize,
    pub lead: u32,
}

impl Refusal {
    ghost use Rattle.refusal.specs.Refused.{refused_at, unclear_at};

    pub fn at(reason: Reason, place: usize) -> Refusal
        ensures { result ≡ refused_at reason place }
    {
        Refusal {
            reason,
            place,
            lead: 0,
        }
    }

    pub fn unclear(place: usize, lead: u32) -> Refusal
        ensures { result ≡ unclear_at place lead }
    {
        Refusal {
            reason: Reason::Unclear,
            place,
            lead,
        }
    }
}
