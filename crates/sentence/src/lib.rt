// Refusals in words: document 02, order 8.
#![tactic(auto)]

ghost use Rattle.std.specs.Prelude.{◌≡◌, length};
ghost use Rattle.sentence.specs.Reading.{read_sentence};
ghost use Rattle.sentence.specs.Writing.{write_sentence, sentence_into};

use refusal::{Reason, Refusal};

pub mod laws;
mod matching;
mod rows;
mod writing;

// What stands in a pattern for the place and for the lead.
const PLACE_MARK: u8 = b'#';

const LEAD_MARK: u8 = b'%';

// Document 02, order 8: "places go up to 65,535 and leads up to 960".
const MOST_PLACE: u32 = 65535;

const MOST_LEAD: u32 = 960;

// The refusal that the sentence came from, or 20.
pub fn read_sentence(bytes: &[u8]) -> Result<Refusal, Refusal>
    ensures { result ≡ read_sentence bytes.now }
{
    rows::read(rows::table(), bytes)
}

// The sentence of a refusal, put at the front of out, and its length; or 20 or 9. The number may be any of 32 bits.
pub fn write_sentence(
    number: u32,
    place: usize,
    lead: u32,
    out: &mut [u8],
) -> Result<usize, Refusal>
    ensures answer { result ≡ write_sentence number place lead (length out.old) }
    ensures output { out.new ≡ sentence_into number place lead out.old }
{
    let Some(pattern) = rows::pattern_of(rows::table(), number) else {
        return Err(Refusal::at(Reason::Sentence, 0));
    };
    writing::write(pattern, place, lead, out)
}
