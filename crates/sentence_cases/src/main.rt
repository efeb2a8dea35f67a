// Refusals in words: the sentence of every number at several places, those that have none, and the lines of the input, which are
// sentences, nearly sentences, or none.
#![tactic(auto)]

ghost use Rattle.std.specs.Prelude.{◌≤◌, IfOk};

use std::io;
use std::io::Read;

mod lines;

fn main(rt: HostRuntime) -> io::Result<()> {
    every_number(&rt)?;
    leads(&rt)?;
    not_written(&rt)?;
    read_input(&rt, &mut rt.stdin())
}

// From 0 to one more than document 02 ever names.
fn every_number(rt: &impl Print) -> io::Result<()> {
    for number in 0..25 {
        for place in [0, 7, 1024, 65535] {
            lines::write(rt, number, place, 0)?;
        }
    }
    Ok(())
}

fn leads(rt: &impl Print) -> io::Result<()> {
    lines::write(rt, 10, 0, 2)?;
    lines::write(rt, 10, 1023, 960)?;
    lines::write(rt, 10, 65535, 959)
}

// Each limit by itself and, but for the last two, where the output is too short as well.
fn not_written(rt: &impl Print) -> io::Result<()> {
    lines::write(rt, 276, 0, 0)?;
    lines::write(rt, 4294967295, 18446744073709551615, 4294967295)?;
    lines::write(rt, 8, 65536, 0)?;
    lines::write(rt, 10, 0, 961)?;
    lines::write(rt, 8, 0, 2)?;
    lines::write_short(rt, 276, 0, 0)?;
    lines::write_short(rt, 8, 65536, 0)?;
    lines::write_short(rt, 10, 0, 961)?;
    lines::write_short(rt, 8, 0, 2)?;
    lines::write_short(rt, 8, 0, 0)?;
    lines::write_short(rt, 18, 9, 0)?;
    lines::write_short(rt, 18, 10, 0)
}

// Reads each line of the input's first 4,096 bytes as a sentence.
fn read_input(rt: &impl Print, input: &mut impl Read) -> io::Result<()> {
    let mut buffer = [0u8; 4096];
    let count = read_front(input, &mut buffer)?;
    read_lines(rt, &buffer[..count])
}

// Fills the buffer as far as the input goes: how many bytes it has then. Each turn goes on by what a read gave, so that no `for` counts it.
fn read_front(input: &mut impl Read, buffer: &mut [u8; 4096]) -> io::Result<usize>
    ensures { IfOk result (λ count. count ≤ 4096) }
{
    let mut count = 0;
    while count < buffer.len() {
        let more = input.read(&mut buffer[count..])?;
        if more == 0 {
            break;
        }
        count += more;
    }
    Ok(count)
}

// Each line ends in a line feed.
fn read_lines(rt: &impl Print, bytes: &[u8]) -> io::Result<()> {
    for piece in bytes.split_inclusive(|&b| b == b'\n') {
        if let Some(line) = piece.strip_suffix(b"\n") {
            lines::read(rt, line)?;
        }
    }
    Ok(())
}
