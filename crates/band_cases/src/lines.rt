// A call of an entry and its line: what it is given, and the answer. A frequency is told as its whole number of 1/512 Hz and
// as the bit pattern of the f64, which tells it apart from every other; a measurement and its distance as the pattern alone.
use band::{Band, Located};
use refusal::Refusal;
use std::io;

fn refused(rt: &impl Print, refusal: Refusal) -> io::Result<()> {
    let Refusal {
        reason,
        place,
        lead,
    } = refusal;
    let number = reason.number();
    print!(rt; ": refused {number} place {place} lead {lead}")
}

fn settings(rt: &impl Print, mode: u32, width: u32, centre: u32) -> io::Result<()> {
    print!(rt; "mode {mode} width {width} centre {centre}")
}

// Its whole part, or 0 if that is no u64.
fn whole_part(x: f64) -> u64 {
    if x > -1.0 && x < 18446744073709551616.0 {
        std::num::truncating_f64_to_u64(x)
    } else {
        0
    }
}

fn pattern(rt: &impl Print, x: f64) -> io::Result<()> {
    if x.is_nan() {
        print!(rt; "NaN")
    } else {
        let bits = x.to_bits();
        print!(rt; "{bits:016x}")
    }
}

fn hertz(rt: &impl Print, name: &str, x: f64) -> io::Result<()> {
    let n = whole_part(x * 512.0);
    print!(rt; "{name}{n}/512 ")?;
    pattern(rt, x)
}

pub fn band(rt: &impl Print, mode: u32, width: u32, centre: u32) -> io::Result<()> {
    settings(rt, mode, width, centre)?;
    match Band::new(mode, width, centre) {
        Ok(band) => {
            hertz(rt, ": edge ", band.edge)?;
            hertz(rt, " spacing ", band.spacing)?;
        }
        Err(refusal) => refused(rt, refusal)?,
    }
    println!(rt; "")
}

pub fn frequency(rt: &impl Print, mode: u32, width: u32, centre: u32, tone: u16) -> io::Result<()> {
    settings(rt, mode, width, centre)?;
    print!(rt; " tone {tone}")?;
    match band::frequency(mode, width, centre, tone) {
        Ok(x) => hertz(rt, ": ", x)?,
        Err(refusal) => refused(rt, refusal)?,
    }
    println!(rt; "")
}

pub fn locate(rt: &impl Print, mode: u32, width: u32, centre: u32, hertz: f64) -> io::Result<()> {
    settings(rt, mode, width, centre)?;
    print!(rt; " measured ")?;
    pattern(rt, hertz)?;
    match band::locate(mode, width, centre, hertz) {
        Located::Heard(tone, off) => {
            print!(rt; ": tone {tone} off ")?;
            pattern(rt, off)?;
        }
        Located::NotFinite => print!(rt; ": not finite")?,
        Located::OutsideBand => print!(rt; ": outside the band")?,
        Located::Refused(refusal) => refused(rt, refusal)?,
    }
    println!(rt; "")
}
