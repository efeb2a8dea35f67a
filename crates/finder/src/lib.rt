// The first block in a long run of tones whose start is unknown: document 02, order 1.
#![tactic(auto)]

ghost use Rattle.std.specs.Prelude.{◌≡◌, length};
ghost use Rattle.refusal.specs.Checks.{within};
ghost use Rattle.search.specs.Starts.{longest_run};
ghost use Rattle.finder.specs.Finding.{found_start, find_block, found_into};
ghost use Rattle.finder.specs.Stretch.{PartOf, InRun, Finds};

use decision::{Character, NONE};
use refusal::{Reason, Refusal, checks};
use search::LONGEST_RUN;

// The answer, and the decisions on the characters of the block found; all are NONE on a refusal.
#[derive(Clone, Copy)]
pub struct BlockFound {
    pub answer: Result<usize, Refusal>,
    pub characters: [Character; 8],
}

// The stretch is the caller's own 64 tones from the start on, and empty on a refusal.
#[derive(Drop)]
pub struct Found<'a> {
    pub stretch: &'a [u16],
    pub block: BlockFound,
}

// Finds the first start of the run at which 64 tones are accepted, and writes the mode's codes to the front of codes.
pub fn find_block<'a>(mode: u32, least_lead: u32, run: &'a [u16], codes: &mut [u8]) -> Found<'a>
    ensures { Finds mode least_lead run.entry result.stretch codes.old result.block codes.new }
{
    let block = find(mode, least_lead, run, codes);
    Found {
        stretch: part_found(run, block),
        block,
    }
}

// The same without the stretch.
pub fn find(mode: u32, least_lead: u32, run: &[u16], codes: &mut [u8]) -> BlockFound
    ensures answer { result ≡ find_block mode least_lead run.now (length codes.old) }
    ensures output { codes.new ≡ found_into mode least_lead run.now codes.old }
{
    let answer = locate(mode, least_lead, run, codes.len());
    match answer {
        Ok(start) => {
            let heard = &run[start..start + 64];
            let decoded = block_decoder::decode_block(mode, least_lead, heard, codes);
            let characters = decoded.characters;
            BlockFound { answer, characters }
        }
        Err(_) => BlockFound {
            answer,
            characters: [NONE; 8],
        },
    }
}

// Where the block is, for an output of room codes.
fn locate(mode: u32, least_lead: u32, run: &[u16], room: usize) -> Result<usize, Refusal>
    ensures { result ≡ found_start mode least_lead run.now room }
{
    let b = checks::check_mode(mode)?;
    checks::check_lead(least_lead)?;
    if !is_run(run.len()) {
        return Err(Refusal::at(Reason::ToneCount, 0));
    }
    if room < b {
        return Err(Refusal::at(Reason::Room, 0));
    }
    let range = tone_range::check(checks::tone_count(mode), run);
    if let Some(bad) = range.bad {
        return Err(Refusal::at(Reason::Tone, bad));
    }
    let start = search::first_accepted(mode, least_lead, run);
    start.ok_or(Refusal::at(Reason::NotFound, 0))
}

fn is_run(count: usize) -> bool
    ensures { result ≡ within 64 longest_run count }
{
    64 <= count && count <= LONGEST_RUN
}

// The part of a run that the answer tells, itself and not a copy.
fn part_found<'a>(run: &'a [u16], block: BlockFound) -> &'a [u16]
    requires { InRun block.answer run.now }
    ensures { PartOf run.entry result block.answer }
{
    match block.answer {
        Ok(start) => &run[start..start + 64],
        Err(_) => &run[0..0],
    }
}
