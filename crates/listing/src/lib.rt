// The listing of decoded blocks, from the bytes of the input to the bytes printed: document 01, "The listing program".
#![tactic(auto)]

ghost use Rattle.std.specs.Prelude.{◌≡◌, ◌+◌, ◌≤◌, length, take};
ghost use Rattle.lists.specs.Lists.{over};
ghost use Rattle.reader.specs.Reader.{end_tones, line_from};
ghost use Rattle.stages.specs.Stages.{told};
ghost use Rattle.listing.specs.Steps.{takes_marks, piece_said, piece_tones, last_line, ended, heard, heard_tones};
ghost use Rattle.listing.specs.Internal.{tones_read, read_from};

use reader::{Stretch, TONES};
use report::ROOM;
use stages::{Listing, OUTPUT, PIECE, Progress, Stage};

// A line as far as it stands in a piece, and the place where reading stopped: a line feed, or the end of the bytes.
#[derive(Clone, Copy)]
struct Within {
    listing: Listing,
    at: usize,
}

// The first count bytes of a piece, or all of them if it has no more; if count is 0, the end of the input.
#[tactic(auto, unfolding(crate::specs::Steps::heard, crate::specs::Steps::heard_tones))]
pub fn hear(
    listing: Listing,
    piece: &[u8; PIECE],
    count: usize,
    tones: &mut [u16; TONES],
    out: &mut [u8; OUTPUT],
) -> Progress
    ensures answer { result ≡ told (heard listing tones.old (take count piece.now)) }
    ensures kept { tones.new ≡ heard_tones listing tones.old (take count piece.now) }
    ensures output { out.new ≡ over (heard listing tones.old (take count piece.now)).text out.old }
{
    if count == 0 {
        return finish(listing, tones, out);
    }
    hear_lines(listing, &piece[..count.min(PIECE)], tones, out)
}

// Line after line, the last one as far as it stands here.
fn hear_lines(listing: Listing, bytes: &[u8], tones: &mut [u16; TONES], out: &mut [u8]) -> Progress
    requires { (length bytes.now ≤ 4096) × (40960 ≤ length out.old) }
    ensures answer { result ≡ told (piece_said listing tones.old bytes.now) }
    ensures kept { tones.new ≡ piece_tones listing tones.old bytes.now }
    ensures output { out.new ≡ over (piece_said listing tones.old bytes.now).text out.old }
{
    let mut state = listing;
    let mut written = 0;
    let mut from = 0;
    // A turn goes on behind what a line took, so that there is no index to count; to split at the line feeds would read each byte twice.
    while from < bytes.len() {
        let Within { listing: read, at } = read_from(state, bytes, from, tones);
        if bytes.len() <= at {
            return Progress {
                listing: read,
                written,
            };
        }
        let end = written + ROOM;
        let said = judge::close(read, tones, &mut out[written..end]);
        state = said.listing;
        written += said.written;
        from = at + 1;
    }
    Progress {
        listing: state,
        written,
    }
}

#[tactic(auto, unfolding(crate::specs::Internal::read_from, crate::specs::Internal::line_read, crate::specs::Internal::tones_read, reader::specs::Reader::stretch))]
fn read_from(listing: Listing, bytes: &[u8], from: usize, tones: &mut [u16; TONES]) -> Within
    ensures answer { result ≡ read_from listing bytes.now from }
    ensures kept { tones.new ≡ tones_read listing (line_from bytes.now from) tones.old }
{
    let marks = takes_marks(listing.stage);
    let Stretch { line, at } = reader::read_line(listing.line, marks, bytes, from, tones);
    Within {
        listing: Listing { line, ..listing },
        at,
    }
}

// The end of the input: the last line, and the text after it.
fn finish(listing: Listing, tones: &mut [u16; TONES], out: &mut [u8]) -> Progress
    requires { 40960 ≤ length out.old }
    ensures answer { result ≡ told (ended listing tones.old) }
    ensures kept { tones.new ≡ end_tones listing.line tones.old }
    ensures output { out.new ≡ over (ended listing tones.old).text out.old }
{
    let last = last_line(listing, tones, &mut out[..ROOM]);
    let end = last.written + ROOM;
    let ending = stages::finish(last.listing, &mut out[last.written..end]);
    stages::stopped(last.written + ending)
}

// A last line with no line feed is a line too.
#[tactic(auto, unfolding(crate::specs::Steps::last_line, report::specs::Output::fitting, reader::specs::Reader::end_tones))]
fn last_line(listing: Listing, tones: &mut [u16; TONES], out: &mut [u8]) -> Progress
    requires { 1024 ≤ length out.old }
    ensures answer { result ≡ told (last_line listing tones.old) }
    ensures kept { tones.new ≡ end_tones listing.line tones.old }
    ensures output { out.new ≡ over (last_line listing tones.old).text out.old }
{
    if reader::is_blank(listing.line) {
        return Progress {
            listing,
            written: 0,
        };
    }
    judge::close(listing, tones, out)
}

// `-` is a word in every line but the first.
fn takes_marks(stage: Stage) -> bool
    ensures { result ≡ takes_marks stage }
{
    !matches!(stage, Stage::Settings)
}
