// Lines and their parts, put at the front of what is lent. Eight lines take 880 bytes at most: a field of 64 bits takes 21, one of 32 bits
// 11, or 12 with a sign. Each function asks for the room of its longest text, and promises to take no more.
ghost use Rattle.std.specs.Prelude.{◌≡◌, ◌++◌, ◌≤◌, length};
ghost use Rattle.lists.specs.Lists.{over};
ghost use Rattle.text.specs.Ascii.{space};
ghost use Rattle.text.specs.Decimal.{field};
ghost use Rattle.block_report.specs.Lines.{decided_text, marked_text, word_text, words_text, character_text, characters_text, unclear_text};

use decision::Character;
use refusal::Refusal;
use text::{LINE_FEED, SPACE};

// Two numbers, a space between them, and the byte that follows.
fn put_pair(first: u64, second: u64, end: u8, out: &mut [u8]) -> usize
    requires { 42 ≤ length out.old }
    ensures answer { result ≡ length (field first space ++ field second end) }
    ensures output { out.new ≡ over (field first space ++ field second end) out.old }
    ensures short { result ≤ 42 }
{
    let at = text::put_field(first, SPACE, out);
    at + text::put_field(second, end, &mut out[at..])
}

// Of a character block number and place, code and lead.
fn put_decided(block: u64, q: usize, character: Character, out: &mut [u8]) -> usize
    requires { 84 ≤ length out.old }
    ensures answer { result ≡ length (decided_text block q character) }
    ensures output { out.new ≡ over (decided_text block q character) out.old }
    ensures short { result ≤ 64 }
{
    let code = put_pair(block, q as u64, SPACE, out);
    let lead = u64::from(character.lead);
    code + put_pair(u64::from(character.code), lead, SPACE, &mut out[code..])
}

// A word and its correlation, and the byte that follows.
fn put_word(word: u32, correlation: i32, end: u8, out: &mut [u8]) -> usize
    requires { 23 ≤ length out.old }
    ensures answer { result ≡ length (word_text word correlation end) }
    ensures output { out.new ≡ over (word_text word correlation end) out.old }
    ensures short { result ≤ 23 }
{
    let at = text::put_field(u64::from(word), SPACE, out);
    at + text::put_signed_field(correlation, end, &mut out[at..])
}

// The word that won and the word that came next, at the end of a line.
fn put_words(character: Character, out: &mut [u8]) -> usize
    requires { 46 ≤ length out.old }
    ensures answer { result ≡ length (words_text character) }
    ensures output { out.new ≡ over (words_text character) out.old }
    ensures short { result ≤ 46 }
{
    let next = put_word(character.word, character.correlation, SPACE, out);
    next + put_word(
        character.next,
        character.next_correlation,
        LINE_FEED,
        &mut out[next..],
    )
}

fn put_character(block: u64, q: usize, character: Character, out: &mut [u8]) -> usize
    requires { 110 ≤ length out.old }
    ensures answer { result ≡ length (character_text block q character) }
    ensures output { out.new ≡ over (character_text block q character) out.old }
    ensures short { result ≤ 110 }
{
    let words = put_decided(block, q, character, out);
    words + put_words(character, &mut out[words..])
}

// A line for each character.
pub fn put_characters(block: u64, characters: &[Character], out: &mut [u8]) -> usize
    requires { (length characters.now ≤ 8) × (880 ≤ length out.old) }
    ensures answer { result ≡ length (characters_text block characters.now (length characters.now)) }
    ensures output { out.new ≡ over (characters_text block characters.now (length characters.now)) out.old }
{
    let mut at = 0;
    for (q, &character) in characters.iter().enumerate() {
        at += put_character(block, q, character, &mut out[at..]);
    }
    at
}

// Of a block refused by 10 its number, the place, a mark and the lead.
fn put_marked(block: u64, refusal: Refusal, out: &mut [u8]) -> usize
    requires { 65 ≤ length out.old }
    ensures answer { result ≡ length (marked_text block refusal) }
    ensures output { out.new ≡ over (marked_text block refusal) out.old }
    ensures short { result ≤ 65 }
{
    let mark = put_pair(block, refusal.place as u64, SPACE, out);
    mark + text::put_labelled(b"- ", u64::from(refusal.lead), SPACE, &mut out[mark..])
}

pub fn put_unclear(block: u64, refusal: Refusal, character: Character, out: &mut [u8]) -> usize
    requires { 111 ≤ length out.old }
    ensures answer { result ≡ length (unclear_text block refusal character) }
    ensures output { out.new ≡ over (unclear_text block refusal character) out.old }
{
    let words = put_marked(block, refusal, out);
    words + put_words(character, &mut out[words..])
}
