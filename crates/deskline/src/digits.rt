// Words and numbers as characters. Each function writes at a place of a buffer and gives the place past what it wrote.

ghost use Rattle.std.specs.Prelude.{◌≡◌, [], ◌∷◌, ◌+◌, ◌≤◌, ◌<◌, length};
ghost use Rattle.encoding.specs.Hex.{char_of, hex_of};
ghost use Rattle.deskline.specs.Text.{decimal, decimal_char, put_at};

const DIGITS: [u8; 16] = [
    0x30, 0x31, 0x32, 0x33, 0x34, 0x35, 0x36, 0x37, 0x38, 0x39, 0x41, 0x42, 0x43, 0x44, 0x45, 0x46,
];

// A hexadecimal digit.
fn hex_char(d: u8) -> u8
    requires { d < 16 }
    ensures { result ≡ char_of d }
{
    DIGITS[d as usize]
}

// The last digit of a number in base ten.
fn decimal_char(n: u8) -> u8
    ensures { result ≡ decimal_char n }
{
    0x30 + n % 10
}

pub(crate) fn put_char(out: &mut [u8], at: usize, c: u8) -> usize
    requires { at + 1 ≤ length out.old }
    ensures { (result ≡ at + 1) × (out.new ≡ put_at at (c ∷ []) out.old) }
{
    out[at] = c;
    at + 1
}

pub(crate) fn put_word(out: &mut [u8], at: usize, word: &[u8]) -> usize
    requires { at + length word.now ≤ length out.old }
    ensures { (result ≡ at + length word.now)
        × (out.new ≡ put_at at word.now out.old) }
{
    let end = at + word.len();
    out[at..end].copy_from_slice(word);
    end
}

pub(crate) fn put_hex(out: &mut [u8], at: usize, byte: u8) -> usize
    requires { at + 2 ≤ length out.old }
    ensures { (result ≡ at + 2) × (out.new ≡ put_at at (hex_of (byte ∷ [])) out.old) }
{
    let high = hex_char(byte / 16 % 16);
    let low = hex_char(byte % 16);
    let next = put_char(out, at, high);
    put_char(out, next, low)
}

pub(crate) fn put_decimal(out: &mut [u8], at: usize, n: u8) -> usize
    requires { at + 3 ≤ length out.old }
    ensures { (result ≡ at + length (decimal n)) × (out.new ≡ put_at at (decimal n) out.old) }
{
    if n < 10 {
        return put_char(out, at, decimal_char(n));
    }
    if n < 100 {
        let next = put_char(out, at, decimal_char(n / 10));
        return put_char(out, next, decimal_char(n));
    }
    let second = put_char(out, at, decimal_char(n / 100));
    let third = put_char(out, second, decimal_char(n / 10));
    put_char(out, third, decimal_char(n))
}
