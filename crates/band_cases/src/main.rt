// Runs the entries of a band on case 12 of document 01's bench sheet, on the ends of the limits at every mode, on measurements at
// the edges of that band and around 0, and on inputs that break several limits at once.
#![tactic(auto)]

use std::io;

mod lines;

fn main(rt: HostRuntime) -> io::Result<()> {
    case_12(&rt)?;
    ends(&rt)?;
    widths(&rt)?;
    edges(&rt)?;
    around_0(&rt)?;
    refused(&rt)
}

fn case_12(rt: &impl Print) -> io::Result<()> {
    lines::band(rt, 5, 1000, 1500)?;
    lines::frequency(rt, 5, 1000, 1500, 0)?;
    lines::frequency(rt, 5, 1000, 1500, 31)
}

// A mode's first tone in the narrowest band at its least centre, and its last in the widest at the greatest.
fn ends(rt: &impl Print) -> io::Result<()> {
    for mode in 1..9 {
        lines::frequency(rt, mode, 125, 63, 0)?;
        lines::frequency(rt, mode, 2000, 10000, (1 << mode) - 1)?;
    }
    Ok(())
}

// A centre of half the width puts the lower edge at 0.
fn widths(rt: &impl Print) -> io::Result<()> {
    for (mode, width, centre) in [
        (8, 125, 1500),
        (8, 250, 125),
        (8, 500, 250),
        (8, 1000, 500),
        (1, 2000, 1000),
    ] {
        lines::band(rt, mode, width, centre)?;
    }
    Ok(())
}

// The band of case 12 reaches from 1000 up to 2000 Hz, and tone 1 begins at 1031.25 Hz. Beside each edge stands the f64 below it.
fn edges(rt: &impl Print) -> io::Result<()> {
    for hertz in [
        1000.0,
        999.9999999999999,
        1031.25,
        1031.2499999999998,
        1984.375,
        1999.9999999999998,
        2000.0,
    ] {
        lines::locate(rt, 5, 1000, 1500, hertz)?;
    }
    Ok(())
}

// A band from 0 Hz owns both zeros and the least f64 above them, and not the one below.
fn around_0(rt: &impl Print) -> io::Result<()> {
    let least = 5e-324;
    for hertz in [0.0, -0.0, least, -least] {
        lines::locate(rt, 5, 1000, 500, hertz)?;
    }
    Ok(())
}

// Each line breaks its own limit and, where it can, those that are checked later.
fn refused(rt: &impl Print) -> io::Result<()> {
    for (mode, width, centre) in [
        (0, 0, 10001),
        (9, 0, 10001),
        (u32::MAX, u32::MAX, u32::MAX),
        (8, 0, 10001),
        (8, 126, 10001),
        (8, u32::MAX, u32::MAX),
        (8, 125, 10001),
        (8, 125, u32::MAX),
        (8, 125, 62),
        (8, 1000, 499),
        (8, 2000, 0),
    ] {
        lines::band(rt, mode, width, centre)?;
        lines::frequency(rt, mode, width, centre, u16::MAX)?;
        lines::locate(rt, mode, width, centre, f64::NAN)?;
    }
    for hertz in [
        f64::NAN,
        f64::INFINITY,
        f64::NEG_INFINITY,
        8.98846567431158e307,
    ] {
        lines::locate(rt, 5, 1000, 1500, hertz)?;
    }
    lines::frequency(rt, 1, 125, 63, 2)?;
    lines::frequency(rt, 5, 1000, 1500, 32)?;
    lines::frequency(rt, 8, 2000, 10000, 256)?;
    lines::frequency(rt, 8, 2000, 10000, u16::MAX)
}
