// A line of numbers, read piece by piece: document 01, "The listing program". The numbers of the words that ended stand in a lent array.
#![tactic(auto)]

ghost use Rattle.std.specs.Prelude.{◌≡◌};
ghost use Rattle.reader.specs.Reader.{with_digit, with_mark, word_end, kept_tone};
ghost use Rattle.reader.specs.Reader.{is_blank, line_end, end_tones, is_read, line_from, stretch, read_tones};

use chain::MISSING;
use text::{LINE_FEED, SPACE};

// The tones of a line that are kept, one for each count: more than a block has, so that a longer line is seen to be one.
pub const TONES: usize = 256;

// What was read of a word: nothing yet, a number, or what is no word, here or earlier in the line. A mark is the missing tone's number.
#[derive(Clone, Copy)]
pub enum Word {
    Empty,
    Number(u16),
    Unreadable,
}

// What was read of a line: the word that has not ended, and the count of those that have. It stops at 255.
#[derive(Clone, Copy)]
pub struct Line {
    pub word: Word,
    pub count: u8,
}

// A line with more of it read, and the place of what was not read: a line feed, or the end of the bytes.
#[derive(Clone, Copy)]
pub struct Stretch {
    pub line: Line,
    pub at: usize,
}

// The bytes from a place on, up to a line feed. A hyphen is a word where marks may stand. Most bytes are digits, so they are asked for first.
pub fn read_line(
    line: Line,
    marks: bool,
    bytes: &[u8],
    from: usize,
    tones: &mut [u16; TONES],
) -> Stretch
    ensures answer { result ≡ stretch marks line bytes.now from }
    ensures output { tones.new ≡ read_tones marks line (line_from bytes.now from) tones.old }
{
    let mut line = line;
    for at in from..bytes.len() {
        let byte = bytes[at];
        if byte.is_ascii_digit() {
            line.word = line.word.with_digit(byte - b'0');
        } else if byte == LINE_FEED {
            return Stretch { line, at };
        } else if byte == SPACE {
            line = line.word_end(tones);
        } else if byte == b'-' && marks {
            line.word = line.word.with_mark();
        } else {
            line.word = Word::Unreadable;
        }
    }
    Stretch {
        line,
        at: from.max(bytes.len()),
    }
}

// The end of a line, and of its last word.
#[tactic(auto, unfolding(crate::specs::Reader::line_end, crate::specs::Reader::end_tones))]
pub fn end_line(line: Line, tones: &mut [u16; TONES]) -> Line
    ensures answer { result ≡ line_end line }
    ensures output { tones.new ≡ end_tones line tones.old }
{
    if is_blank(line) {
        line
    } else {
        line.word_end(tones)
    }
}

// Nothing of the line was read.
pub fn is_blank(line: Line) -> bool
    ensures { result ≡ is_blank line }
{
    let Line { word, count } = line;
    matches!(word, Word::Empty) && count == 0
}

// Of a line that ended: every word of it was read.
pub fn is_readable(line: Line) -> bool
    ensures { result ≡ is_read line }
{
    matches!(line.word, Word::Empty)
}

impl Word {
    #[tactic(auto, unfolding(crate::specs::Reader::with_digit, crate::specs::Reader::number_with))]
    fn with_digit(self, digit: u8) -> Word
        ensures { result ≡ with_digit self digit }
    {
        let value = match self {
            Word::Empty => return Word::Number(u16::from(digit)),
            Word::Number(value) => value,
            Word::Unreadable => return Word::Unreadable,
        };
        let longer = value
            .checked_mul(10)
            .and_then(|tens| tens.checked_add(u16::from(digit)));
        match longer {
            Some(longer) => Word::Number(longer),
            None => Word::Unreadable,
        }
    }

    fn with_mark(self) -> Word
        ensures { result ≡ with_mark self }
    {
        match self {
            Word::Empty => Word::Number(MISSING),
            Word::Number(_) | Word::Unreadable => Word::Unreadable,
        }
    }
}

impl Line {
    // A word ends: its tone is kept, and if it is none the line is unreadable.
    #[tactic(auto, unfolding(crate::specs::Reader::word_end, crate::specs::Reader::kept_tone))]
    fn word_end(self, tones: &mut [u16; TONES]) -> Line
        ensures answer { result ≡ word_end self }
        ensures output { tones.new ≡ kept_tone self tones.old }
    {
        let count = self.count;
        match self.word {
            Word::Number(tone) => {
                tones[usize::from(count)] = tone;
                Line {
                    word: Word::Empty,
                    count: count.saturating_add(1),
                }
            }
            Word::Empty | Word::Unreadable => Line {
                word: Word::Unreadable,
                count,
            },
        }
    }
}
