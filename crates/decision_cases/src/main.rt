// Runs the decision on every code as sent, on document 01's cases 6 to 11 as the signs and weights of one character, on a winner and a
// runner-up that are both negative, and on weights up to the largest byte, of which four bits count.
#![tactic(auto)]

ghost use Rattle.std.specs.Prelude.{◌≤◌};

use decision::Character;
use std::{array, io};

// The signs of a code as it is sent; codes from 64 up have every sign turned.
fn sent(code: u64) -> [bool; 64] {
    array::from_fn(|t| walsh::is_minus(code, t as u64) != (64 <= code))
}

// The same with each of the first `n` even places turned.
fn turned(code: u64, n: usize) -> [bool; 64]
    requires { n ≤ 32 }
{
    let mut signs = sent(code);
    for k in 0..n {
        signs[2 * k] = !signs[2 * k];
    }
    signs
}

// Weights of 1, and 0 at each of the first `n` even places.
fn missing(n: usize) -> [u8; 64]
    requires { n ≤ 32 }
{
    let mut weights = [1u8; 64];
    for k in 0..n {
        weights[2 * k] = 0;
    }
    weights
}

fn print(rt: &impl Print, c: Character) -> io::Result<()> {
    println!(rt;
        "{} {} {} {} {} {}",
        c.code, c.lead, c.word, c.correlation, c.next, c.next_correlation
    )
}

fn print_every_code(rt: &impl Print) -> io::Result<()> {
    for code in 0..128 {
        print(rt, lead_finder::decide(sent(code), &[1; 64]))?;
    }
    Ok(())
}

fn main(rt: HostRuntime) -> io::Result<()> {
    print_every_code(&rt)?;
    print(&rt, lead_finder::decide(turned(0, 15), &[1; 64]))?;
    print(&rt, lead_finder::decide(turned(0, 16), &[1; 64]))?;
    print(&rt, lead_finder::decide(sent(0), &missing(31)))?;
    print(&rt, lead_finder::decide(sent(0), &missing(32)))?;
    print(&rt, lead_finder::decide(turned(0, 32), &[1; 64]))?;
    print(&rt, lead_finder::decide(sent(0), &[0; 64]))?;
    print(&rt, lead_finder::decide(turned(64, 15), &[1; 64]))?;
    print(&rt, lead_finder::decide(sent(70), &[15; 64]))?;
    print(&rt, lead_finder::decide(sent(70), &[255; 64]))?;
    print(&rt, lead_finder::decide(sent(70), &[16; 64]))
}
