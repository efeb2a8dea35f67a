// Bytes matched with a pattern.
ghost use Rattle.std.specs.Prelude.{◌≡◌, true, false, ◌≤◌};
ghost use Rattle.sentence.specs.Condition.{is_pattern};
ghost use Rattle.sentence.specs.Reading.{may_follow, scan_from, piece, matched};
ghost use Rattle.sentence.specs.Internal.{taken, told};

use super::{LEAD_MARK, MOST_LEAD, MOST_PLACE, PLACE_MARK};

// The place and the lead of a sentence of the pattern, if bytes are one; else how many bytes agree with one. Each byte of the pattern takes
// its bytes, and then none is left.
pub fn match_pattern(pattern: &[u8], bytes: &[u8]) -> Result<(usize, u32), usize>
    requires { is_pattern pattern.now ≡ true }
    ensures { result ≡ told (matched pattern.now bytes.now) }
{
    let mut at = 0;
    let mut place = 0;
    let mut lead = 0;
    for &p in pattern {
        let Some((count, value)) = take_piece(p, &bytes[at..]) else {
            return Err(at);
        };
        match p {
            PLACE_MARK => place = value as usize,
            LEAD_MARK => lead = value,
            _ => {}
        }
        at += count;
    }
    if at == bytes.len() {
        Ok((place, lead))
    } else {
        Err(at)
    }
}

// How many bytes at the front one byte of a pattern takes, if any, and the number in them.
fn take_piece(p: u8, bytes: &[u8]) -> Option<(usize, u32)>
    ensures { result ≡ taken (piece p bytes.now) }
{
    match (p, bytes) {
        (PLACE_MARK, _) => scan(MOST_PLACE, bytes),
        (LEAD_MARK, _) => scan(MOST_LEAD, bytes),
        (_, [c, ..]) => (*c == p).then_some((1, 0)),
        (_, []) => None,
    }
}

// The digits at the front, if there are any, and their value, up to limit: in decimal with no 0 before another digit.
fn scan(limit: u32, bytes: &[u8]) -> Option<(usize, u32)>
    requires { limit ≤ 65535 }
    ensures { result ≡ taken (scan_from limit false 0 bytes.now) }
{
    let mut count = 0;
    let mut value = 0;
    for &c in bytes {
        if !may_follow(limit, 0 < count, value, c) {
            break;
        }
        value = 10 * value + u32::from(c - b'0');
        count += 1;
    }
    (count != 0).then_some((count, value))
}

// Whether c is one more digit of the number of which value is read.
#[tactic(auto, unfolding(crate::specs::Reading::may_follow))]
fn may_follow(limit: u32, begun: bool, value: u32, c: u8) -> bool
    requires { value ≤ 65535 }
    ensures { result ≡ may_follow limit begun value c }
{
    c.is_ascii_digit() && 10 * value + u32::from(c - b'0') <= limit && !(begun && value == 0)
}
