// What the codes of clear blocks deliver: the end of their text, or refusal 11 or 12. Document 01, "Messages".
#![tactic(auto)]

ghost use Rattle.std.specs.Prelude.{◌≡◌, eqb, position};
ghost use Rattle.delivery.specs.Delivery.{text_end, delivery};

use refusal::{Reason, Refusal};

pub mod laws;

// The count of codes of a text of at most limit codes, or the refusal.
pub fn judge(limit: usize, mode: usize, codes: &[u8]) -> Result<usize, Refusal>
    ensures { result ≡ delivery limit mode codes.now }
{
    let n = text_end(codes);
    if let Some(zero) = first_zero(&codes[..n]) {
        return Err(Refusal::at(Reason::Zero, zero));
    }
    if mode <= codes.len() - n {
        return Err(Refusal::at(Reason::Zero, n));
    }
    if limit < n {
        return Err(Refusal::at(Reason::TooLong, limit));
    }
    Ok(n)
}

// The place after the last code that is not 0, or 0, which is the count of codes of the empty text and no missing place.
fn text_end(codes: &[u8]) -> usize
    ensures { result ≡ text_end codes.now }
{
    for i in (0..codes.len()).rev() {
        if codes[i] != 0 {
            return i + 1;
        }
    }
    0
}

// The lowest place of a 0, if there is one.
fn first_zero(codes: &[u8]) -> Option<usize>
    ensures { result ≡ position (λ code. eqb code 0) codes.now }
{
    codes.iter().position(|&code| code == 0)
}
