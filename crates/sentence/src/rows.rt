// The rows of the list of sentences.
ghost use Rattle.std.specs.Prelude.{◌≡◌, true, [], MatchOption};
ghost use Rattle.sentence.specs.Sentences.{sentences, pattern_in};
ghost use Rattle.sentence.specs.Condition.{are_sound};
ghost use Rattle.sentence.specs.Reading.{read_from};
ghost use Rattle.sentence.specs.Internal.{listed, IsPatternOf};

use super::matching;
use refusal::{Reason, Refusal};

// A refusal's number, and its sentence with marks for the place and the lead. The number, since no static can hold a `Reason`.
pub struct Row {
    number: u8,
    pattern: &'static [u8],
}

const ROWS: [Row; 20] = [
    Row {
        number: 1,
        pattern: b"Refusal 1: the mode is not from 1 to 8 (place #).",
    },
    Row {
        number: 2,
        pattern: b"Refusal 2: the set lead is out of its range (place #).",
    },
    Row {
        number: 3,
        pattern: b"Refusal 3: the width is not 125, 250, 500, 1000 or 2000 Hz (place #).",
    },
    Row {
        number: 4,
        pattern: b"Refusal 4: the centre is above 10000 Hz, or twice the centre is below the width (place #).",
    },
    Row {
        number: 5,
        pattern: b"Refusal 5: the count of codes or of blocks is not allowed (place #).",
    },
    Row {
        number: 6,
        pattern: b"Refusal 6: the code or byte at place # cannot be sent.",
    },
    Row {
        number: 7,
        pattern: b"Refusal 7: the count of tones or of weights is not allowed (place #).",
    },
    Row {
        number: 8,
        pattern: b"Refusal 8: the tone at place # is neither one of the mode's nor an allowed missing mark.",
    },
    Row {
        number: 9,
        pattern: b"Refusal 9: the output has not the size that is needed (place #).",
    },
    Row {
        number: 10,
        pattern: b"Refusal 10: the character at place # is unclear: its lead is %.",
    },
    Row {
        number: 11,
        pattern: b"Refusal 11: the text has a zero at place # that is not filling.",
    },
    Row {
        number: 12,
        pattern: b"Refusal 12: the text is too long: it goes on at place #.",
    },
    Row {
        number: 13,
        pattern: b"Refusal 13: no start in the run of tones is accepted (place #).",
    },
    Row {
        number: 14,
        pattern: b"Refusal 14: the weight at place # is above 15.",
    },
    Row {
        number: 15,
        pattern: b"Refusal 15: the measured frequency is infinite or not a number (place #).",
    },
    Row {
        number: 16,
        pattern: b"Refusal 16: the measured frequency lies outside the band (place #).",
    },
    Row {
        number: 17,
        pattern: b"Refusal 17: the depot is not from 0 to 29 (place #).",
    },
    Row {
        number: 18,
        pattern: b"Refusal 18: depot # has 8 blocks waiting.",
    },
    Row {
        number: 19,
        pattern: b"Refusal 19: the sender has no place left that depot # may take.",
    },
    Row {
        number: 20,
        pattern: b"Refusal 20: this is no sentence of the list from place # on.",
    },
];

pub fn table() -> &'static [Row]
    ensures { listed result.now ≡ sentences }
{
    &ROWS
}

// The refusal of the first row that bytes are a sentence of; else 20 at the longest beginning that a row shares.
pub fn read(rows: &[Row], bytes: &[u8]) -> Result<Refusal, Refusal>
    requires { are_sound (listed rows.now) ≡ true }
    ensures { result ≡ read_from (listed rows.now) 0 bytes.now }
{
    let mut best = 0;
    for row in rows {
        match matching::match_pattern(row.pattern, bytes) {
            Ok((place, lead)) => return Ok(Refusal {
                reason: Reason::from(row.number),
                place,
                lead,
            }),
            Err(shared) => best = best.max(shared),
        }
    }
    Err(Refusal::at(Reason::Sentence, best))
}

// The pattern of a number's row, if there is one.
pub fn pattern_of(rows: &[Row], number: u32) -> Option<&'static [u8]>
    requires { are_sound (listed rows.now) ≡ true }
    ensures { MatchOption result (pattern_in (listed rows.now) number ≡ []) (λ p. IsPatternOf number (listed rows.now) p.now) }
{
    for row in rows {
        if u32::from(row.number) == number {
            return Some(row.pattern);
        }
    }
    None
}
