// The stages of a listing: its state, and what is printed at its beginning and at its end. Document 01, "The listing program".
#![tactic(auto)]

ghost use Rattle.std.specs.Prelude.{◌≡◌, length};
ghost use Rattle.lists.specs.Lists.{over};
ghost use Rattle.report.specs.Output.{heading, fitting};
ghost use Rattle.stages.specs.Stages.{told, before_line, begun, stopped, is_stopped, ending_text};

use reader::{Line, Word};

// How far the input is read: the line of mode and set lead, the lines of blocks, or nothing more.
#[derive(Clone, Copy)]
pub enum Stage {
    Settings,
    Blocks,
    Stopped,
}

// The state of a listing: its stage, the mode and set lead of its blocks, how many there were so far, and the line as far as it is read.
#[derive(Clone, Copy)]
pub struct Listing {
    pub stage: Stage,
    pub mode: u32,
    pub least_lead: u32,
    pub blocks: u64,
    pub line: Line,
}

// The bytes of the input that are heard at once.
pub const PIECE: usize = 4096;

// The room for all that a piece can give. A line of a block has 128 bytes at least and gives 1,024 at most, so eight for each byte of
// the piece; and as many for the line before it, of which 511 bytes count at most, and for the text that stops the listing.
pub const OUTPUT: usize = 40960;

// The state after a piece, and how many bytes of text were written to the output's front.
#[derive(Clone, Copy)]
pub struct Progress {
    pub listing: Listing,
    pub written: usize,
}

// The listing before the first byte, and the heading.
pub fn begin(out: &mut [u8; OUTPUT]) -> Progress
    ensures answer { result ≡ told (record { text = heading; next = begun }) }
    ensures output { out.new ≡ over heading out.old }
{
    let written = put_heading(out);
    before_line(Stage::Settings, 0, 0, 0, written)
}

fn put_heading(out: &mut [u8; OUTPUT]) -> usize
    ensures answer { result ≡ length heading }
    ensures output { out.new ≡ over heading out.old }
{
    text::put_text(b"BLOCK CHAR CODE LEAD WORD CORR NEXT CORR\n", out)
}

// The text after the last line, if the output has room for any text.
#[tactic(auto, unfolding(crate::specs::Stages::ending_text))]
pub fn finish(listing: Listing, out: &mut [u8]) -> usize
    ensures answer { result ≡ length (fitting (ending_text listing.stage listing.blocks) (length out.old)) }
    ensures output { out.new ≡ over (fitting (ending_text listing.stage listing.blocks) (length out.old)) out.old }
{
    match listing.stage {
        Stage::Settings => report::put_unreadable(1, out),
        Stage::Blocks => report::put_end(listing.blocks, out),
        Stage::Stopped => 0,
    }
}

// Nothing more will be written, whatever follows.
pub fn is_stopped(listing: Listing) -> bool
    ensures { result ≡ is_stopped listing.stage }
{
    matches!(listing.stage, Stage::Stopped)
}

// Nothing more is read.
pub fn stopped(written: usize) -> Progress
    ensures { result ≡ record { listing = stopped; written = written } }
{
    before_line(Stage::Stopped, 0, 0, 0, written)
}

// The state before a line.
pub fn before_line(
    stage: Stage,
    mode: u32,
    least_lead: u32,
    blocks: u64,
    written: usize,
) -> Progress
    ensures { result ≡ record { listing = before_line stage mode least_lead blocks; written = written } }
{
    Progress {
        listing: Listing {
            stage,
            mode,
            least_lead,
            blocks,
            line: Line {
                word: Word::Empty,
                count: 0,
            },
        },
        written,
    }
}
