// Tone frequencies: document 01, "Tone frequencies", every step exact in f64; and the tone that a measured frequency belongs to:
// document 02, order 4.
#![tactic(auto)]

ghost use Rattle.std.specs.Prelude.{true, ◌≡◌, None, ◌%◌, ◌^◌, ltb};
ghost use Rattle.std.specs.Option.{option_map};
ghost use Rattle.refusal.specs.Checks.{is_mode};
ghost use Rattle.refusal.specs.Refused.{refused_at};
ghost use Rattle.band.specs.Limits.{is_width, is_centre, fault, answered};
ghost use Rattle.band.specs.Frequencies.{band_of, hertz_in, plan, frequency_of};
ghost use Rattle.band.specs.Locating.{located_of, refusal_of, locate_fault};
ghost use Rattle.band.specs.Internal.{tone_edge_in, holds_in, Between, OwnerIn};

use refusal::{Reason, Refusal, checks};

pub mod laws;

// The lower edge and the spacing of the tones, in Hz.
#[derive(Clone, Copy)]
pub struct Band {
    pub edge: f64,
    pub spacing: f64,
}

// The tone that a measurement belongs to and how many Hz it is off that tone, or why there is none. It is no Result: document 01 names
// these four cases.
#[derive(Clone, Copy)]
pub enum Located {
    Heard(u16, f64),
    NotFinite,
    OutsideBand,
    Refused(Refusal),
}

impl Band {
    // The band of a mode, a width and a centre, both in Hz.
    #[tactic(auto, unfolding(crate::specs::Frequencies::plan))]
    pub fn new(mode: u32, width: u32, centre: u32) -> Result<Band, Refusal>
        ensures { result ≡ plan mode width centre }
    {
        // Tone 0 is one of every mode.
        check(mode, width, centre, 0)?;
        Ok(band_of(mode, width, centre))
    }

    // Where a tone lies: half a spacing above the lower edge of its stretch. In a band of `Band::new` it is exact (law `Fractions`).
    pub fn hertz(self, tone: u16) -> f64
        ensures { result ≡ hertz_in self tone }
    {
        let half = self.spacing / 2.0;
        self.edge + half + self.spacing * f64::from(tone)
    }

    // Where a tone's stretch begins, and the one of the tone below ends.
    #[tactic(auto, unfolding(crate::specs::Internal::tone_edge_in))]
    fn tone_edge(self, tone: u16) -> f64
        ensures { result ≡ tone_edge_in self tone }
    {
        self.edge + self.spacing * f64::from(tone)
    }

    // From the lower edge up to, but without, the upper, where the stretch of one more tone would begin.
    #[tactic(auto, unfolding(crate::specs::Internal::holds_in))]
    fn holds(self, mode: u32, hertz: f64) -> bool
        ensures { result ≡ holds_in self (2 ^ (mode % 16)) hertz }
    {
        let upper = self.tone_edge(checks::tone_count(mode));
        hertz >= self.edge && hertz < upper
    }

    // The tone whose stretch holds a measurement in the band, by halving: one comparison for each bit of a tone, so 8 at most.
    fn owner(self, mode: u32, hertz: f64) -> u16
        requires mode_value { is_mode mode ≡ true }
        requires between { Between self hertz 0 (2 ^ mode) }
        ensures { OwnerIn self (2 ^ mode) hertz result }
    {
        let mut tone: u16 = 0;
        let mut count = checks::tone_count(mode);
        for _ in 0..mode {
            count /= 2;
            let next = tone + count;
            if hertz >= self.tone_edge(next) {
                tone = next;
            }
        }
        tone
    }
}

// The frequency of a tone of a mode, for a width and a centre, both in Hz.
#[tactic(auto, unfolding(crate::specs::Frequencies::frequency_of))]
pub fn frequency(mode: u32, width: u32, centre: u32, tone: u16) -> Result<f64, Refusal>
    ensures { result ≡ frequency_of mode width centre tone }
{
    check(mode, width, centre, tone)?;
    let band = band_of(mode, width, centre);
    Ok(band.hertz(tone))
}

// The tone that a measured frequency in Hz belongs to, and the measurement less that tone's frequency.
#[tactic(auto, unfolding(crate::specs::Locating::located_of, crate::specs::Locating::locate_fault))]
pub fn locate(mode: u32, width: u32, centre: u32, hertz: f64) -> Located
    ensures answer { result ≡ located_of mode width centre hertz }
    ensures refusal { refusal_of result ≡ option_map (λ reason. refused_at reason 0) (locate_fault mode width centre hertz) }
{
    // Tone 0 is one of every mode.
    if let Err(refusal) = check(mode, width, centre, 0) {
        return Located::Refused(refusal);
    }
    if !hertz.is_finite() {
        return Located::NotFinite;
    }
    let band = band_of(mode, width, centre);
    if !band.holds(mode, hertz) {
        return Located::OutsideBand;
    }
    let tone = band.owner(mode, hertz);
    Located::Heard(tone, hertz - band.hertz(tone))
}

// The refusal of the first check that fails, if one does.
#[tactic(auto, using(crate::proofs::Settings::mode_tones_of), unfolding(crate::specs::Limits::fault, refusal::specs::Checks::checked_mode))]
fn check(mode: u32, width: u32, centre: u32, tone: u16) -> Result<(), Refusal>
    ensures { result ≡ answered (fault mode width centre tone) tt }
{
    checks::check_mode(mode)?;
    if !is_width(width) {
        return Err(Refusal::at(Reason::Width, 0));
    }
    if !is_centre(width, centre) {
        return Err(Refusal::at(Reason::Centre, 0));
    }
    if !is_tone(mode, tone) {
        return Err(Refusal::at(Reason::Tone, 0));
    }
    Ok(())
}

fn is_width(width: u32) -> bool
    ensures { result ≡ is_width width }
{
    matches!(width, 125 | 250 | 500 | 1000 | 2000)
}

fn is_centre(width: u32, centre: u32) -> bool
    ensures { result ≡ is_centre width centre }
{
    centre <= 10000 && width <= 2 * centre
}

fn is_tone(mode: u32, tone: u16) -> bool
    ensures { result ≡ ltb tone (2 ^ (mode % 16)) }
{
    tone < checks::tone_count(mode)
}

fn band_of(mode: u32, width: u32, centre: u32) -> Band
    requires { fault mode width centre 0 ≡ None }
    ensures { result ≡ band_of mode width centre }
{
    let centre_hz = f64::from(centre);
    let width_hz = f64::from(width);
    let tones = f64::from(checks::tone_count(mode));
    Band {
        edge: centre_hz - width_hz / 2.0,
        spacing: width_hz / tones,
    }
}
