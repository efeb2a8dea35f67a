// The lines of a block, put at the front of an output: document 01, "The listing program", and order 5. The answer is how many bytes were
// written. Nothing is written to an output of less than report::ROOM bytes, and 0 is the length of no text.
#![tactic(auto)]

ghost use Rattle.std.specs.Prelude.{◌≡◌, ◌≤◌, length, get_or};
ghost use Rattle.lists.specs.Lists.{over};
ghost use Rattle.decision.specs.Decision.{none};
ghost use Rattle.report.specs.Output.{fitting};
ghost use Rattle.block_report.specs.Lines.{refusal_text, block_text};

use block_decoder::BlockDecoded;
use decision::{Character, NONE};
use refusal::{Reason, Refusal};
use report::ROOM;

mod lines;

// What is said of a block that was decoded: a line for each character, or the line of the refusal. No block has more than eight characters: a
// larger count is taken as eight.
#[tactic(auto, unfolding(crate::specs::Lines::block_text, crate::specs::Lines::answer_text, report::specs::Output::fitting))]
pub fn put_block(block: u64, decoded: BlockDecoded, out: &mut [u8]) -> usize
    ensures answer { result ≡ length (fitting (block_text block decoded) (length out.old)) }
    ensures output { out.new ≡ over (fitting (block_text block decoded) (length out.old)) out.old }
{
    if out.len() < ROOM {
        return 0;
    }
    match decoded.answer {
        Ok(n) => lines::put_characters(block, &decoded.characters[..n.min(8)], out),
        Err(refusal) => put_refusal(block, refusal, decoded.characters, out),
    }
}

#[tactic(auto, unfolding(crate::specs::Lines::refusal_text, report::specs::Output::fitting))]
fn put_refusal(block: u64, refusal: Refusal, characters: [Character; 8], out: &mut [u8]) -> usize
    requires { 1024 ≤ length out.old }
    ensures answer { result ≡ length (refusal_text block refusal characters) }
    ensures output { out.new ≡ over (refusal_text block refusal characters) out.old }
{
    if refusal.reason == Reason::Unclear {
        let character = character_at(refusal.place, &characters);
        return lines::put_unclear(block, refusal, character, out);
    }
    report::put_refused(refusal, out)
}

// No block has a character past the eighth: NONE stands there.
fn character_at(place: usize, characters: &[Character]) -> Character
    ensures { result ≡ get_or characters.now place none }
{
    characters.get(place).copied().unwrap_or(NONE)
}
