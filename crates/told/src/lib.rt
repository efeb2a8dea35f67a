// What C is told of each answer. A count or a place that 32 bits do not hold is capped.
#![tactic(auto)]

ghost use Rattle.std.specs.Prelude.{◌≡◌};
ghost use Rattle.lists.specs.Caps.{capped};
ghost use Rattle.told.specs.Told.{accepted_told, refusal_told, counted_told, character_told, characters_told, block_told, found_told, energies_told, nowhere_told, located_told, handed_told, sent_told, read_told};
ghost use Rattle.told.specs.Capped.{place_capped, counted_capped, refused_capped, block_capped, found_capped, energies_capped, located_capped, read_capped};

use band::Located;
use block_decoder::BlockDecoded;
use decision::Character;
use energy::Energies;
use finder::BlockFound;
use refusal::{Reason, Refusal};
use sender::Served;

// number 0: accepted, and count is the tones, codes or bytes written. Else the refusal, and count is 0.
#[repr(C)]
#[derive(Clone, Copy)]
pub struct Answer {
    pub number: u32,
    pub place: u32,
    pub lead: u32,
    pub count: u32,
}

// A decided character: code and lead, the word that won and the word that came next, each with its correlation.
#[repr(C)]
#[derive(Clone, Copy)]
pub struct CharacterAnswer {
    pub code: u32,
    pub lead: u32,
    pub word: u32,
    pub correlation: i32,
    pub next: u32,
    pub next_correlation: i32,
}

// The answer for a block, and its characters; six zeros past the mode's, and where none was decided.
#[repr(C)]
#[derive(Clone, Copy)]
pub struct BlockAnswer {
    pub answer: Answer,
    pub characters: [CharacterAnswer; 8],
}

// The answer for a run, the start of the block found, and its characters; a refusal has neither, and zeros stand there.
#[repr(C)]
#[derive(Clone, Copy)]
pub struct FoundAnswer {
    pub answer: Answer,
    pub start: u32,
    pub characters: [CharacterAnswer; 8],
}

// number 0: the total, and a sum that equals it for each of the mode's characters; 0 past them. Else the refusal, and zeros.
#[repr(C)]
#[derive(Clone, Copy)]
pub struct EnergiesAnswer {
    pub number: u32,
    pub place: u32,
    pub total: u32,
    pub sums: [u32; 8],
}

// number 0: the tone, and how many Hz the measurement is off it. Else the refusal, and zeros.
#[repr(C)]
#[derive(Clone, Copy)]
pub struct LocatedAnswer {
    pub number: u32,
    pub place: u32,
    pub tone: u32,
    pub hertz_off: f64,
}

// The answer for a send, the depot served, and the mode of its block; zeros where no block was sent.
#[repr(C)]
#[derive(Clone, Copy)]
pub struct SentAnswer {
    pub answer: Answer,
    pub depot: u32,
    pub mode: u32,
}

// number 0: the refusal that a sentence came from. Else the answer has the refusal, and zeros follow.
#[repr(C)]
#[derive(Clone, Copy)]
pub struct ReadAnswer {
    pub answer: Answer,
    pub number: u32,
    pub place: u32,
    pub lead: u32,
}

impl Answer {
    pub fn accepted(count: usize) -> Answer
        ensures { result ≡ accepted_told (capped count) }
    {
        Answer {
            number: 0,
            place: 0,
            lead: 0,
            count: capped(count),
        }
    }
}

impl From<Refusal> for Answer {
    ghost from_gives = { λ refusal told. told ≡ refusal_told (place_capped refusal) };

    fn from(refusal: Refusal) -> Answer {
        Answer {
            number: u32::from(refusal.reason.number()),
            place: capped(refusal.place),
            lead: refusal.lead,
            count: 0,
        }
    }
}

impl From<Result<usize, Refusal>> for Answer {
    ghost from_gives = { λ answer told. told ≡ counted_told (counted_capped answer) };

    fn from(answer: Result<usize, Refusal>) -> Answer {
        match answer {
            Ok(count) => Answer::accepted(count),
            Err(refusal) => Answer::from(refusal),
        }
    }
}

// A block that is handed in writes nothing yet, so that its count is 0.
impl From<Result<(), Refusal>> for Answer {
    ghost from_gives = { λ answer told. told ≡ handed_told (refused_capped answer) };

    fn from(answer: Result<(), Refusal>) -> Answer {
        match answer {
            Ok(()) => Answer::accepted(0),
            Err(refusal) => Answer::from(refusal),
        }
    }
}

impl From<Character> for CharacterAnswer {
    ghost from_gives = { λ character told. told ≡ character_told character };

    fn from(character: Character) -> CharacterAnswer {
        CharacterAnswer {
            code: u32::from(character.code),
            lead: character.lead,
            word: character.word,
            correlation: character.correlation,
            next: character.next,
            next_correlation: character.next_correlation,
        }
    }
}

impl From<BlockDecoded> for BlockAnswer {
    ghost from_gives = { λ heard told. told ≡ block_told (block_capped heard) };

    fn from(heard: BlockDecoded) -> BlockAnswer {
        let decided = heard.characters;
        BlockAnswer {
            answer: Answer::from(heard.answer),
            characters: characters(decided),
        }
    }
}

impl FoundAnswer {
    // A block found in a run has the mode's count of codes.
    pub fn new(mode: u32, found: BlockFound) -> FoundAnswer
        ensures { result ≡ found_told mode (found_capped found) }
    {
        let decided = found.characters;
        let told = characters(decided);
        match found.answer {
            Ok(start) => FoundAnswer {
                answer: Answer::accepted(mode as usize),
                start: capped(start),
                characters: told,
            },
            Err(refusal) => FoundAnswer {
                answer: Answer::from(refusal),
                start: 0,
                characters: told,
            },
        }
    }
}

impl From<Energies> for EnergiesAnswer {
    ghost from_gives = { λ energies told. told ≡ energies_told (energies_capped energies) };

    fn from(energies: Energies) -> EnergiesAnswer {
        let sums = energies.sums;
        match energies.answer {
            Ok(total) => EnergiesAnswer {
                number: 0,
                place: 0,
                total,
                sums,
            },
            Err(refusal) => {
                let told = Answer::from(refusal);
                EnergiesAnswer {
                    number: told.number,
                    place: told.place,
                    total: 0,
                    sums,
                }
            }
        }
    }
}

impl From<Located> for LocatedAnswer {
    ghost from_gives = { λ located told. told ≡ located_told (located_capped located) };

    fn from(located: Located) -> LocatedAnswer {
        match located {
            Located::Heard(tone, hertz_off) => LocatedAnswer {
                number: 0,
                place: 0,
                tone: u32::from(tone),
                hertz_off,
            },
            Located::NotFinite => nowhere(Refusal::at(Reason::NotFinite, 0)),
            Located::OutsideBand => nowhere(Refusal::at(Reason::OutsideBand, 0)),
            Located::Refused(refusal) => nowhere(refusal),
        }
    }
}

fn nowhere(refusal: Refusal) -> LocatedAnswer
    ensures { result ≡ nowhere_told (place_capped refusal) }
{
    let told = Answer::from(refusal);
    LocatedAnswer {
        number: told.number,
        place: told.place,
        tone: 0,
        hertz_off: 0.0,
    }
}

// The count tells a block from none waiting.
impl From<Result<Option<Served>, Refusal>> for SentAnswer {
    ghost from_gives = { λ answer told. told ≡ sent_told (refused_capped answer) };

    fn from(answer: Result<Option<Served>, Refusal>) -> SentAnswer {
        match answer {
            Ok(Some(served)) => SentAnswer {
                answer: Answer::accepted(64),
                depot: served.depot,
                mode: served.mode,
            },
            Ok(None) => SentAnswer {
                answer: Answer::accepted(0),
                depot: 0,
                mode: 0,
            },
            Err(refusal) => SentAnswer {
                answer: Answer::from(refusal),
                depot: 0,
                mode: 0,
            },
        }
    }
}

impl From<Result<Refusal, Refusal>> for ReadAnswer {
    ghost from_gives = { λ answer told. told ≡ read_told (read_capped answer) };

    fn from(answer: Result<Refusal, Refusal>) -> ReadAnswer {
        match answer {
            Ok(refusal) => {
                let told = Answer::from(refusal);
                ReadAnswer {
                    answer: Answer::accepted(0),
                    number: told.number,
                    place: told.place,
                    lead: told.lead,
                }
            }
            Err(refusal) => ReadAnswer {
                answer: Answer::from(refusal),
                number: 0,
                place: 0,
                lead: 0,
            },
        }
    }
}

fn characters(characters: [Character; 8]) -> [CharacterAnswer; 8]
    ensures { result ≡ characters_told characters }
{
    characters.map(CharacterAnswer::from)
}

// A count for C: 2^32 - 1 stands for every larger one. One line under a name of its own, by which definitions and exports say so.
pub fn capped(count: usize) -> u32
    ensures { result ≡ capped count }
{
    u32::try_from(count).unwrap_or(u32::MAX)
}
