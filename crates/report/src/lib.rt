// The lines that end a listing, put at the front of an output: document 01, "The listing program". The answer is how many bytes were
// written. Nothing is written to an output of less than ROOM bytes, and 0 is the length of no text.
#![tactic(auto)]

ghost use Rattle.std.specs.Prelude.{◌≡◌, ◌++◌, ◌≤◌, length};
ghost use Rattle.lists.specs.Lists.{over};
ghost use Rattle.text.specs.Ascii.{line_feed};
ghost use Rattle.text.specs.Decimal.{field};
ghost use Rattle.report.specs.Output.{fitting, refused_text, unreadable_text, end_text};

use refusal::Refusal;
use text::{LINE_FEED, SPACE};

// The room that every text of a listing has to have. The longest is that of a block (`block_report`).
pub const ROOM: usize = 1024;

pub fn put_refused(refusal: Refusal, out: &mut [u8]) -> usize
    ensures answer { result ≡ length (fitting (refused_text refusal) (length out.old)) }
    ensures output { out.new ≡ over (fitting (refused_text refusal) (length out.old)) out.old }
{
    if out.len() < ROOM {
        return 0;
    }
    put_number_and_place(refusal, out)
}

fn put_number_and_place(refusal: Refusal, out: &mut [u8]) -> usize
    requires { 50 ≤ length out.old }
    ensures answer { result ≡ length (refused_text refusal) }
    ensures output { out.new ≡ over (refused_text refusal) out.old }
{
    let number = u64::from(refusal.reason.number());
    let place = text::put_labelled(b"REFUSED ", number, SPACE, out);
    place + text::put_field(refusal.place as u64, LINE_FEED, &mut out[place..])
}

// The line of the input that cannot be read, counted from 1.
#[tactic(auto, unfolding(crate::specs::Output::unreadable_text, text::specs::Ascii::ascii, lists::specs::Lists::tab))]
pub fn put_unreadable(line: u64, out: &mut [u8]) -> usize
    ensures answer { result ≡ length (fitting (unreadable_text line) (length out.old)) }
    ensures output { out.new ≡ over (fitting (unreadable_text line) (length out.old)) out.old }
{
    put_line(b"REFUSED INPUT ", line, out)
}

#[tactic(auto, unfolding(crate::specs::Output::end_text, text::specs::Ascii::ascii, lists::specs::Lists::tab))]
pub fn put_end(blocks: u64, out: &mut [u8]) -> usize
    ensures answer { result ≡ length (fitting (end_text blocks) (length out.old)) }
    ensures output { out.new ≡ over (fitting (end_text blocks) (length out.old)) out.old }
{
    put_line(b"END ", blocks, out)
}

// A line of a short label and a number.
fn put_line(label: &[u8], n: u64, out: &mut [u8]) -> usize
    requires { length label.now ≤ 20 }
    ensures answer { result ≡ length (fitting (label.now ++ field n line_feed) (length out.old)) }
    ensures output { out.new ≡ over (fitting (label.now ++ field n line_feed) (length out.old)) out.old }
{
    if out.len() < ROOM {
        return 0;
    }
    text::put_labelled(label, n, LINE_FEED, out)
}
