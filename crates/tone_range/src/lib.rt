// The range check of tones: document 01, refusal 8, and document 02, order 2.
#![tactic(auto)]

ghost use Rattle.std.specs.Prelude.{◌≡◌, not, ◌&&◌, ◌==◌, nat_le};
ghost use Rattle.chain.specs.Chain.{missing_mark};
ghost use Rattle.tone_range.specs.Range.{range_of};

pub mod laws;

// The lowest place of a bad tone, if there is one; and how many tones were looked at.
#[derive(Clone, Copy, Debug, PartialEq, Eq)]
pub struct Looked {
    pub bad: Option<usize>,
    pub looked: usize,
}

// Looks at one tone after the other, up to the first that is neither below limit nor missing. The count is kept by the turn that looks, so that
// it is of what was done.
pub fn check(limit: u16, tones: &[u16]) -> Looked
    ensures { result ≡ range_of limit tones.now }
{
    let mut looked = 0;
    for (t, &tone) in tones.iter().enumerate() {
        looked += 1;
        if is_bad_tone(limit, tone) {
            return Looked {
                bad: Some(t),
                looked,
            };
        }
    }
    Looked { bad: None, looked }
}

// One comparison tells both: the mark of a missing tone is the greatest u16, so that one more goes round to 0.
fn is_bad_tone(limit: u16, tone: u16) -> bool
    ensures { result ≡ nat_le limit tone && not (tone == missing_mark) }
{
    limit < tone.wrapping_add(1)
}
