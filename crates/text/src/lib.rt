// Text in ASCII, put at the front of an output: bytes, and numbers in decimal. The answer is how many bytes were written. It is no Option: what
// does not fit is written as the empty text (`written`), and 0 is its length.
#![tactic(auto)]

ghost use Rattle.std.specs.Prelude.{◌≡◌, ◌++◌, ◌+◌, ◌≤◌, nat_abs, length, take, drop};
ghost use Rattle.lists.specs.Lists.{over};
ghost use Rattle.text.specs.Decimal.{decimal, field, signed_field};
ghost use Rattle.text.specs.Written.{written};

pub mod laws;

// What parts the fields of a line, and the lines.
pub const SPACE: u8 = b' ';

pub const LINE_FEED: u8 = b'\n';

// The digits of the largest number of 64 bits.
const DIGITS: usize = 20;

// The whole text, or nothing if it does not fit.
pub fn put_text(text: &[u8], out: &mut [u8]) -> usize
    ensures answer { result ≡ length (written text.now (length out.old)) }
    ensures output { out.new ≡ over (written text.now (length out.old)) out.old }
{
    if out.len() < text.len() {
        return 0;
    }
    out[..text.len()].copy_from_slice(text);
    text.len()
}

// The digits of a number, from the last to the first, put before a place of a text. The answer is where they begin: in one of the turns, since
// no number of 64 bits has more than 20 digits.
fn put_before(n: u64, place: usize, text: &mut [u8]) -> usize
    requires { (20 ≤ place) × (place ≤ length text.old) }
    ensures answer { result + length (decimal n) ≡ place }
    ensures output { text.new ≡ take result text.old ++ (decimal n ++ drop place text.old) }
{
    let mut left = n;
    for at in (0..place).rev() {
        if left < 10 {
            text[at] = b'0' + left as u8;
            return at;
        }
        text[at] = b'0' + (left % 10) as u8;
        left /= 10;
    }
    0
}

// The count of a number's digits.
pub fn decimal_length(n: u64) -> usize
    ensures { result ≡ length (decimal n) }
{
    // 0 has one digit, as 1 has.
    n.max(1).ilog10() as usize + 1
}

// A number in decimal, whole or not at all.
pub fn put_decimal(n: u64, out: &mut [u8]) -> usize
    ensures answer { result ≡ length (written (decimal n) (length out.old)) }
    ensures output { out.new ≡ over (written (decimal n) (length out.old)) out.old }
{
    let mut text = [0u8; DIGITS];
    let from = put_before(n, DIGITS, &mut text);
    put_text(&text[from..], out)
}

// The same, and the byte that follows it. Each of the three makes its text in another array, from which one function writes it.
pub fn put_field(n: u64, end: u8, out: &mut [u8]) -> usize
    ensures answer { result ≡ length (written (field n end) (length out.old)) }
    ensures output { out.new ≡ over (written (field n end) (length out.old)) out.old }
{
    let mut text = [end; DIGITS + 1];
    let from = put_before(n, DIGITS, &mut text);
    put_text(&text[from..], out)
}

// The same of a signed number, a minus before a negative one.
pub fn put_signed_field(n: i32, end: u8, out: &mut [u8]) -> usize
    ensures answer { result ≡ length (written (signed_field n end) (length out.old)) }
    ensures output { out.new ≡ over (written (signed_field n end) (length out.old)) out.old }
{
    // Each byte before the digits is a minus, and the text begins at the last of them if the number is negative.
    let mut text = [b'-'; DIGITS + 2];
    text[DIGITS + 1] = end;
    let from = put_before(u64::from(n.unsigned_abs()), DIGITS + 1, &mut text) - usize::from(n < 0);
    put_text(&text[from..], out)
}

// A text before such a field, whole or not at all. The field comes first, since it tells whether both fit.
pub fn put_labelled(label: &[u8], n: u64, end: u8, out: &mut [u8]) -> usize
    ensures answer { result ≡ length (written (label.now ++ field n end) (length out.old)) }
    ensures output { out.new ≡ over (written (label.now ++ field n end) (length out.old)) out.old }
{
    let at = label.len();
    if out.len() < at {
        return 0;
    }
    let count = put_field(n, end, &mut out[at..]);
    if count == 0 {
        return 0;
    }
    count + put_text(label, out)
}
