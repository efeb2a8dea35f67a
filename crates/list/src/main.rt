// Lists the blocks whose tones come on standard input: document 01, "The listing program". It reads, hands on and writes; what is written
// is the promise of `listing`.
#![tactic(auto)]

ghost use Rattle.std.specs.Prelude.{◌≤◌, length};

use reader::TONES;
use stages::{Listing, OUTPUT, PIECE, Progress};
use std::io::{self, Read, Write};
use std::str;

// What failed and why go to standard error: the system's words, without the number that follows them.
fn fail(rt: &impl Eprint, what: &str, error: io::Error) -> io::Result<()> {
    let mut text = [0u8; 128];
    let mut rest = &mut text[..];
    write!(rest, "{error}")?;
    let size = 128usize.saturating_sub(rest.len());
    let reason = str::from_utf8(&text[..size]).unwrap_or("");
    let words = match reason.split_once(" (os error ") {
        Some((words, _)) => words,
        None => reason,
    };
    eprintln!(rt; "{what}: {words}")
}

// After a read or a write that failed nothing more is told.
fn stop(rt: &impl Eprint, what: &str, error: io::Error) -> Option<Listing> {
    fail(rt, what, error).unwrap_or(());
    None
}

// Writes the text of a piece at once, so that a live feed is listed as it comes. After a write that failed nothing may follow.
// The answer is the listing so far, or none if nothing more is to be read.
fn tell(rt: &(impl Print + Eprint), progress: Progress, out: &[u8]) -> Option<Listing>
    requires { progress.written ≤ length out.now }
{
    let Progress { listing, written } = progress;
    if let Err(error) = rt.write_all(&out[..written]) {
        return stop(rt, "write", error);
    }
    if stages::is_stopped(listing) {
        None
    } else {
        Some(listing)
    }
}

fn begin(rt: &(impl Print + Eprint), out: &mut [u8; OUTPUT]) -> Option<Listing> {
    let progress = stages::begin(out);
    tell(rt, progress, out)
}

// What comes next of the input, as much as it is. To read nothing is its end.
fn hear(
    rt: &(impl Print + Eprint),
    input: &mut impl Read,
    listing: Listing,
    piece: &mut [u8; PIECE],
    tones: &mut [u16; TONES],
    out: &mut [u8; OUTPUT],
) -> Option<Listing> {
    match input.read(piece) {
        Ok(count) => {
            let progress = listing::hear(listing, piece, count, tones, out);
            tell(rt, progress, out)
        }
        Err(error) => stop(rt, "read", error),
    }
}

// A loop has to end, and nothing says that the input does: its turns are as many as no run uses up.
fn main(rt: HostRuntime) {
    let mut input = rt.stdin();
    let mut piece = [0u8; PIECE];
    let mut tones = [0u16; TONES];
    let mut out = [0u8; OUTPUT];
    let mut told = begin(&rt, &mut out);
    for _ in 0..u64::MAX {
        let Some(listing) = told else { break };
        told = hear(&rt, &mut input, listing, &mut piece, &mut tones, &mut out);
    }
}
