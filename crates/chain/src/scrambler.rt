// A character's bits, scrambled by the key: document 01, "Sending a block".
ghost use Rattle.std.specs.Prelude.{◌≡◌};
ghost use Rattle.lists.specs.Lists.{tab};
ghost use Rattle.chain.specs.Chain.{code_bit};
ghost use Rattle.chain.specs.Tables.{keys_at};

// Bit q of the entry at place t is the key bit of character q at t: bit (13 × q + t) mod 64 of E257E6D0291574EC, hexadecimal.
const KEYS: [u8; 64] = [
    218, 38, 249, 15, 96, 51, 105, 11, 8, 184, 93, 186, 165, 109, 147, 252, 7, 48, 153, 180, 133,
    132, 220, 174, 93, 210, 54, 201, 126, 3, 152, 76, 90, 66, 194, 238, 215, 46, 105, 155, 228, 63,
    129, 204, 166, 45, 33, 225, 119, 235, 151, 180, 77, 242, 31, 192, 102, 211, 22, 16, 112, 187,
    117, 75,
];

// The key bits of all characters at each place. A function and no public constant: its clause tells each caller what the table is, with no
// lemma to name.
pub fn keys() -> [u8; 64]
    ensures { result ≡ tab keys_at 64 }
{
    KEYS
}

// Codes from 64 up use the words again, with every sign turned. A minus is bit 1.
pub fn code_bit(code: u8, t: usize) -> bool
    ensures { result ≡ code_bit code t }
{
    if code < 64 {
        walsh::is_minus(u64::from(code), t as u64)
    } else {
        !walsh::is_minus(u64::from(code - 64), t as u64)
    }
}
