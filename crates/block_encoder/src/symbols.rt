// The symbols of a block's codes, character by character.
ghost use Rattle.std.specs.Prelude.{◌≡◌, true, cond, ◌+◌, ◌<◌, ◌≤◌, length};
ghost use Rattle.lists.specs.Lists.{tab};
ghost use Rattle.refusal.specs.Checks.{is_mode};
ghost use Rattle.chain.specs.Chain.{symbol_at};
ghost use Rattle.chain.specs.Tables.{keys_at, place_value};
ghost use Rattle.block_encoder.specs.Internal.{part_symbols};

use chain::{interleaver, scrambler};

// A symbol with the value added, if the bit is 1.
fn added(symbol: u8, bit: bool, value: u8) -> u8
    requires { symbol + cond bit value 0 < 256 }
    ensures { result ≡ symbol + cond bit value 0 }
{
    if bit { symbol + value } else { symbol }
}

// Adds to each symbol what character q sends at its place.
fn add_character(q: usize, codes: &[u8], keys: &[u8; 64], values: &[u8; 72], symbols: &mut [u8; 64])
    requires codes { (q < length codes.now) × (length codes.now ≤ 8) }
    requires tables { (keys.now ≡ tab keys_at 64) × (values.now ≡ tab (place_value (length codes.now)) 72) }
    requires sums { symbols.old ≡ part_symbols codes.now q }
    ensures { symbols.new ≡ part_symbols codes.now (q + 1) }
{
    let code = codes[q];
    for t in 0..64 {
        let bit = scrambler::code_bit(code, t) != ((keys[t] >> q) % 2 == 1);
        symbols[t] = added(symbols[t], bit, values[q + t]);
    }
}

// The symbols of the codes.
pub fn of_codes(mode: u32, codes: &[u8]) -> [u8; 64]
    requires { (is_mode mode ≡ true) × (length codes.now ≡ mode) }
    ensures { result ≡ tab (symbol_at mode codes.now) 64 }
{
    let keys = scrambler::keys();
    let values = interleaver::values(mode);
    let mut symbols = [0u8; 64];
    for q in 0..codes.len() {
        add_character(q, codes, &keys, &values, &mut symbols);
    }
    symbols
}
