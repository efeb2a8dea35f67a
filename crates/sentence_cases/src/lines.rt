// A call and its line: what it is given, and the answer.
use refusal::Refusal;
use std::io;

// No sentence is longer.
const ROOM: usize = 128;

// Of the sentences with one digit just that of 18 fits.
const SHORT: usize = 41;

fn refused(rt: &impl Print, refusal: Refusal) -> io::Result<()> {
    print!(rt; "refused ")?;
    told(rt, refusal)
}

fn told(rt: &impl Print, refusal: Refusal) -> io::Result<()> {
    let Refusal {
        reason,
        place,
        lead,
    } = refusal;
    let number = reason.number();
    print!(rt; "{number} place {place} lead {lead}")
}

fn asked(rt: &impl Print, number: u32, place: usize, lead: u32) -> io::Result<()> {
    print!(rt; "write {number} place {place} lead {lead}")
}

fn written(
    rt: &impl Print,
    number: u32,
    place: usize,
    lead: u32,
    out: &mut [u8],
) -> io::Result<()> {
    match sentence::write_sentence(number, place, lead, out) {
        Ok(length) => rt.write_all(&out[..length.min(out.len())])?,
        Err(refusal) => refused(rt, refusal)?,
    }
    println!(rt; "")
}

pub fn write(rt: &impl Print, number: u32, place: usize, lead: u32) -> io::Result<()> {
    asked(rt, number, place, lead)?;
    print!(rt; ": ")?;
    written(rt, number, place, lead, &mut [b'.'; ROOM])
}

pub fn write_short(rt: &impl Print, number: u32, place: usize, lead: u32) -> io::Result<()> {
    asked(rt, number, place, lead)?;
    print!(rt; " into {SHORT} bytes: ")?;
    written(rt, number, place, lead, &mut [b'.'; SHORT])
}

pub fn read(rt: &impl Print, bytes: &[u8]) -> io::Result<()> {
    print!(rt; "read '")?;
    rt.write_all(bytes)?;
    print!(rt; "': ")?;
    match sentence::read_sentence(bytes) {
        Ok(refusal) => {
            print!(rt; "number ")?;
            told(rt, refusal)?;
        }
        Err(refusal) => refused(rt, refusal)?,
    }
    println!(rt; "")
}
