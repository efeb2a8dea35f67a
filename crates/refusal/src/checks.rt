// Limits that several entries check: document 01, "Who can cause a refusal".
ghost use Rattle.std.specs.Prelude.{◌≡◌, ◌%◌, ◌^◌};
ghost use Rattle.refusal.specs.Checks.{is_mode, checked_mode, is_lead_at, checked_lead_at, is_lead, checked_lead};

use super::{Reason, Refusal};

pub fn is_mode(mode: u32) -> bool
    ensures { result ≡ is_mode mode }
{
    1 <= mode && mode <= 8
}

// The mode as a count of characters, where it is one.
#[tactic(auto, unfolding(crate::specs::Checks::checked_mode))]
pub fn check_mode(mode: u32) -> Result<usize, Refusal>
    ensures { result ≡ checked_mode mode }
{
    if is_mode(mode) {
        Ok(mode as usize)
    } else {
        Err(Refusal::at(Reason::Mode, 0))
    }
}

pub fn is_lead(least_lead: u32) -> bool
    ensures { result ≡ is_lead least_lead }
{
    is_lead_at(1, least_lead)
}

// Whether the set lead is 1 to 64 * greatest, where no weight is above greatest.
pub fn is_lead_at(greatest: u8, least_lead: u32) -> bool
    ensures { result ≡ is_lead_at greatest least_lead }
{
    1 <= least_lead && least_lead <= 64 * u32::from(greatest)
}

// The refusal of what is no set lead in plain hearing.
pub fn check_lead(least_lead: u32) -> Result<(), Refusal>
    ensures { result ≡ checked_lead least_lead }
{
    check_lead_at(1, least_lead)
}

// And of what is none where no weight is above greatest.
#[tactic(auto, unfolding(crate::specs::Checks::checked_lead_at))]
pub fn check_lead_at(greatest: u8, least_lead: u32) -> Result<(), Refusal>
    ensures { result ≡ checked_lead_at greatest least_lead }
{
    if is_lead_at(greatest, least_lead) {
        Ok(())
    } else {
        Err(Refusal::at(Reason::LeastLead, 0))
    }
}

// The count of a mode's tones, 2^mode. A number of 16 or more goes by its lowest four bits. To the right, since of a comparison with what is
// shifted to the left the compiler makes a shift in every turn of a loop.
pub fn tone_count(mode: u32) -> u16
    ensures { result ≡ 2 ^ (mode % 16) }
{
    32768u16 >> (15 - mode % 16)
}
