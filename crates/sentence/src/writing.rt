// A pattern with its place and lead put in, written to an output.
ghost use Rattle.std.specs.Prelude.{◌≡◌, ◌<◌, ◌≤◌, ◌^◌, false, length, sum_by};
ghost use Rattle.lists.specs.Lists.{over};
ghost use Rattle.text.specs.Written.{written};
ghost use Rattle.sentence.specs.Patterns.{piece_text, filled, is_empty, most_lead_of};
ghost use Rattle.sentence.specs.Writing.{write_pattern, pattern_into};

use super::{LEAD_MARK, MOST_LEAD, MOST_PLACE, PLACE_MARK};
use refusal::{Reason, Refusal};

// The sentence of a pattern, place and lead, where it shows them and the output has room for it.
pub fn write(pattern: &[u8], place: usize, lead: u32, out: &mut [u8]) -> Result<usize, Refusal>
    requires some { is_empty pattern.now ≡ false }
    requires short { length pattern.now ≤ 65535 }
    ensures answer { result ≡ write_pattern pattern.now place lead (length out.old) }
    ensures output { out.new ≡ pattern_into pattern.now place lead out.old }
{
    if (MOST_PLACE as usize) < place || most_lead(pattern) < lead {
        return Err(Refusal::at(Reason::Sentence, 0));
    }
    if out.len() < filled_length(pattern, place, lead) {
        return Err(Refusal::at(Reason::Room, 0));
    }
    Ok(put_filled(pattern, place, lead, out))
}

// The largest lead that a pattern shows.
fn most_lead(pattern: &[u8]) -> u32
    ensures { result ≡ most_lead_of pattern.now }
{
    if pattern.contains(&LEAD_MARK) {
        MOST_LEAD
    } else {
        0
    }
}

fn filled_length(pattern: &[u8], place: usize, lead: u32) -> usize
    requires { sum_by (λ p. length (piece_text place lead p)) pattern.now < 2 ^ 64 }
    ensures { result ≡ sum_by (λ p. length (piece_text place lead p)) pattern.now }
{
    pattern.iter().map(|&p| piece_length(p, place, lead)).sum()
}

#[tactic(auto, unfolding(crate::specs::Patterns::piece_text))]
fn piece_length(p: u8, place: usize, lead: u32) -> usize
    ensures { result ≡ length (piece_text place lead p) }
{
    match p {
        PLACE_MARK => text::decimal_length(place as u64),
        LEAD_MARK => text::decimal_length(u64::from(lead)),
        _ => 1,
    }
}

fn put_filled(pattern: &[u8], place: usize, lead: u32, out: &mut [u8]) -> usize
    requires { length (filled place lead pattern.now) ≤ length out.old }
    ensures answer { result ≡ length (filled place lead pattern.now) }
    ensures output { out.new ≡ over (filled place lead pattern.now) out.old }
{
    let mut at = 0;
    for &p in pattern {
        at += put_piece(p, place, lead, &mut out[at..]);
    }
    at
}

// What stands for a byte of a pattern, whole or not at all.
#[tactic(auto, unfolding(crate::specs::Patterns::piece_text))]
fn put_piece(p: u8, place: usize, lead: u32, out: &mut [u8]) -> usize
    ensures answer { result ≡ length (written (piece_text place lead p) (length out.old)) }
    ensures output { out.new ≡ over (written (piece_text place lead p) (length out.old)) out.old }
{
    match p {
        PLACE_MARK => text::put_decimal(place as u64, out),
        LEAD_MARK => text::put_decimal(u64::from(lead), out),
        _ => text::put_text(&[p], out),
    }
}
