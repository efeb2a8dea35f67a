// Thirty depots at one sender, together at the limit: who is refused where, what is sent in which order, and what changes nothing.
#![tactic(auto)]

use sender::Sender;
use std::io;

mod lines;

fn main(rt: HostRuntime) -> io::Result<()> {
    let full = every_depot(&rt, Sender::new(), 0, 9)?;
    let stranger = handed_in(&rt, full, 30, 0, 1)?;
    let begun = sent(&rt, stranger, 40)?;
    let short = lines::short_send(&rt, begun)?;
    let filled = every_depot(&rt, short, 9, 11)?;
    sent(&rt, filled, 152)?;
    Ok(())
}

// Each depot in turn hands in its blocks with these numbers: a line for each depot.
fn every_depot(rt: &impl Print, sender: Sender, first: u32, end: u32) -> io::Result<Sender> {
    let mut s = sender;
    for depot in 0..30 {
        s = handed_in(rt, s, depot, first, end)?;
    }
    lines::counts(rt, &s.bytes)?;
    Ok(s)
}

// A depot hands in its blocks with the numbers from first up to end.
fn handed_in(
    rt: &impl Print,
    sender: Sender,
    depot: u32,
    first: u32,
    end: u32,
) -> io::Result<Sender> {
    let mut s = sender;
    lines::depot(rt, depot)?;
    for number in first..end {
        s = lines::hand_in(rt, s, depot, number)?;
    }
    lines::end(rt)?;
    Ok(s)
}

// So many sends, a line for each.
fn sent(rt: &impl Print, sender: Sender, sends: u32) -> io::Result<Sender> {
    let mut s = sender;
    for _ in 0..sends {
        s = lines::send(rt, s)?;
    }
    lines::counts(rt, &s.bytes)?;
    Ok(s)
}
