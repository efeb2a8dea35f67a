// The parts of decoding a block.
ghost use Rattle.std.specs.Prelude.{◌≡◌, ◌+◌, ◌≤◌, length};
ghost use Rattle.lists.specs.Lists.{tab, over};
ghost use Rattle.lists.specs.Places.{scan};
ghost use Rattle.lists.specs.Found.{found};
ghost use Rattle.chain.specs.Tables.{symbol_of};
ghost use Rattle.tone_range.specs.Range.{bad_tone, first_bad_tone};
ghost use Rattle.block_decoder.specs.Internal.{seen_to, code_in};

use chain::{MISSING, gray};
use decision::Character;

// Looks at 16 tones, one after the other, up to the first bad one, and puts down the symbol of each, 0 for a missing one. The place of the bad
// tone, if there is one. Both arms write, and the mark is looked for in the rare one alone: that takes the fewest instructions.
fn look_row(
    limit: u16,
    table: &[u8; 256],
    from: usize,
    tones: &[u16; 64],
    symbols: &mut [u8; 64],
) -> Option<usize>
    requires { (limit ≤ 256) × (table.now ≡ tab symbol_of 256) × (from + 16 ≤ 64) × (symbols.old ≡ seen_to tones.now from) }
    ensures place { result ≡ found (from + 16) (scan (bad_tone limit tones.now) from 16) }
    ensures symbols { symbols.new ≡ seen_to tones.now (scan (bad_tone limit tones.now) from 16) }
{
    for t in from..from + 16 {
        let tone = tones[t];
        if tone < limit {
            symbols[t] = table[usize::from(tone)];
        } else {
            if tone != MISSING {
                return Some(t);
            }
            symbols[t] = 0;
        }
    }
    None
}

// The range check of a block and its symbols, in one pass: the place of the first bad tone, if there is one. Rows of 16 become straight code.
pub fn look(limit: u16, tones: &[u16; 64], symbols: &mut [u8; 64]) -> Option<usize>
    requires { (limit ≤ 256) × (symbols.old ≡ seen_to tones.now 0) }
    ensures place { result ≡ found 64 (first_bad_tone limit tones.now) }
    ensures symbols { symbols.new ≡ seen_to tones.now (first_bad_tone limit tones.now) }
{
    let table = gray::symbols();
    for row in 0..4 {
        if let Some(bad) = look_row(limit, &table, 16 * row, tones, symbols) {
            return Some(bad);
        }
    }
    None
}

// The first count codes of the characters, over the front of codes.
pub fn put_codes(count: usize, characters: [Character; 8], codes: &mut [u8])
    requires { (count ≤ 8) × (count ≤ length codes.old) }
    ensures { codes.new ≡ over (tab (code_in characters) count) codes.old }
{
    for q in 0..count {
        codes[q] = characters[q].code;
    }
}
