// A line that was read to its end: what is printed of it, and how the listing goes on. Document 01, "The listing program". Text is put at
// the front of the output, if that has the room that every text has to have.
#![tactic(auto)]

ghost use Rattle.std.specs.Prelude.{◌≡◌, ◌≤◌, ◌&&◌, length, take, ◌==◌};
ghost use Rattle.lists.specs.Lists.{over};
ghost use Rattle.refusal.specs.Refused.{refused_at};
ghost use Rattle.reader.specs.Reader.{is_read, end_tones};
ghost use Rattle.report.specs.Output.{refused_text, fitting};
ghost use Rattle.block_decoder.specs.Decoding.{decode_block};
ghost use Rattle.stages.specs.Stages.{told_in, stops};
ghost use Rattle.judge.specs.Judged.{checked_said, settings_said, block_said, closed, goes_on};

use block_decoder::BlockDecoded;
use reader::{Line, TONES};
use refusal::{Reason, Refusal, checks};
use stages::{Listing, Progress, Stage};

// The end of a line.
#[tactic(auto, unfolding(crate::specs::Judged::closed, crate::specs::Judged::judged))]
pub fn close(listing: Listing, tones: &mut [u16; TONES], out: &mut [u8]) -> Progress
    ensures answer { result ≡ told_in (length out.old) (closed listing tones.old) }
    ensures kept { tones.new ≡ end_tones listing.line tones.old }
    ensures output { out.new ≡ over (fitting (closed listing tones.old).text (length out.old)) out.old }
{
    let line = reader::end_line(listing.line, tones);
    match listing.stage {
        Stage::Settings => take_settings(line, tones, out),
        Stage::Blocks => take_block(
            listing.mode,
            listing.least_lead,
            listing.blocks,
            line,
            tones,
            out,
        ),
        Stage::Stopped => stages::stopped(0),
    }
}

#[tactic(auto, unfolding(crate::specs::Judged::settings_said))]
fn take_settings(line: Line, tones: &[u16; TONES], out: &mut [u8]) -> Progress
    ensures answer { result ≡ told_in (length out.old) (settings_said line tones.now) }
    ensures output { out.new ≡ over (fitting (settings_said line tones.now).text (length out.old)) out.old }
{
    if !is_pair(line) {
        return stages::stopped(report::put_unreadable(1, out));
    }
    let mode = u32::from(tones[0]);
    let least_lead = u32::from(tones[1]);
    check_settings(mode, least_lead, out)
}

// Of a line that ended: it has two words, and each was read.
fn is_pair(line: Line) -> bool
    ensures { result ≡ (is_read line && line.count == 2) }
{
    reader::is_readable(line) && line.count == 2
}

#[tactic(auto, unfolding(crate::specs::Judged::checked_said, report::specs::Output::fitting))]
fn check_settings(mode: u32, least_lead: u32, out: &mut [u8]) -> Progress
    ensures answer { result ≡ told_in (length out.old) (checked_said mode least_lead) }
    ensures output { out.new ≡ over (fitting (checked_said mode least_lead).text (length out.old)) out.old }
{
    if !checks::is_mode(mode) {
        return refuse(Reason::Mode, out);
    }
    if !checks::is_lead(least_lead) {
        return refuse(Reason::LeastLead, out);
    }
    stages::before_line(Stage::Blocks, mode, least_lead, 0, 0)
}

fn refuse(reason: Reason, out: &mut [u8]) -> Progress
    ensures answer { result ≡ told_in (length out.old) (stops (refused_text (refused_at reason 0))) }
    ensures output { out.new ≡ over (fitting (refused_text (refused_at reason 0)) (length out.old)) out.old }
{
    stages::stopped(report::put_refused(Refusal::at(reason, 0), out))
}

// A line is judged as a whole before its tones are.
#[tactic(auto, unfolding(crate::specs::Judged::block_said, crate::specs::Judged::decoded_said))]
fn take_block(
    mode: u32,
    least_lead: u32,
    blocks: u64,
    line: Line,
    tones: &[u16; TONES],
    out: &mut [u8],
) -> Progress
    ensures answer { result ≡ told_in (length out.old) (block_said mode least_lead blocks line tones.now) }
    ensures output { out.new ≡ over (fitting (block_said mode least_lead blocks line tones.now).text (length out.old)) out.old }
{
    if !reader::is_readable(line) {
        let number = blocks.wrapping_add(2);
        return stages::stopped(report::put_unreadable(number, out));
    }
    let decoded = decide(mode, least_lead, line.count, tones);
    let written = block_report::put_block(blocks, decoded, out);
    if !goes_on(decoded.answer) {
        return stages::stopped(written);
    }
    let next = blocks.wrapping_add(1);
    stages::before_line(Stage::Blocks, mode, least_lead, next, written)
}

// What the first count tones are heard as, with room for any block's codes.
fn decide(mode: u32, least_lead: u32, count: u8, tones: &[u16; TONES]) -> BlockDecoded
    ensures { result ≡ decode_block mode least_lead (take count tones.now) 8 }
{
    block_decoder::decide_block(mode, least_lead, &tones[..usize::from(count)], 8)
}

// An unclear block is listed; any other refusal is the end.
fn goes_on(answer: Result<usize, Refusal>) -> bool
    ensures { result ≡ goes_on answer }
{
    match answer {
        Ok(_) => true,
        Err(refusal) => refusal.reason == Reason::Unclear,
    }
}
