// A call read by a table of the digits' values, which the caller lends.

ghost use Rattle.std.specs.Prelude.{◌≡◌, [], ◌∷◌};
ghost use Rattle.encoding.specs.Hex.{byte_of};
ghost use Rattle.line.specs.Below.{if_below};
ghost use Rattle.line.specs.Requests.{header_of, request_of};
ghost use Rattle.encoding.specs.Tables.{Values};

use crate::request::{Header, malformed};

// 256 is for a character that is no digit: no byte comes of it, so that one test of the sum serves both characters.
const VALUES: [u16; 256] = [
    256, 256, 256, 256, 256, 256, 256, 256, 256, 256, 256, 256, 256, 256, 256, 256, 256, 256, 256,
    256, 256, 256, 256, 256, 256, 256, 256, 256, 256, 256, 256, 256, 256, 256, 256, 256, 256, 256,
    256, 256, 256, 256, 256, 256, 256, 256, 256, 256, 0, 1, 2, 3, 4, 5, 6, 7, 8, 9, 256, 256, 256,
    256, 256, 256, 256, 10, 11, 12, 13, 14, 15, 256, 256, 256, 256, 256, 256, 256, 256, 256, 256,
    256, 256, 256, 256, 256, 256, 256, 256, 256, 256, 256, 256, 256, 256, 256, 256, 10, 11, 12, 13,
    14, 15, 256, 256, 256, 256, 256, 256, 256, 256, 256, 256, 256, 256, 256, 256, 256, 256, 256,
    256, 256, 256, 256, 256, 256, 256, 256, 256, 256, 256, 256, 256, 256, 256, 256, 256, 256, 256,
    256, 256, 256, 256, 256, 256, 256, 256, 256, 256, 256, 256, 256, 256, 256, 256, 256, 256, 256,
    256, 256, 256, 256, 256, 256, 256, 256, 256, 256, 256, 256, 256, 256, 256, 256, 256, 256, 256,
    256, 256, 256, 256, 256, 256, 256, 256, 256, 256, 256, 256, 256, 256, 256, 256, 256, 256, 256,
    256, 256, 256, 256, 256, 256, 256, 256, 256, 256, 256, 256, 256, 256, 256, 256, 256, 256, 256,
    256, 256, 256, 256, 256, 256, 256, 256, 256, 256, 256, 256, 256, 256, 256, 256, 256, 256, 256,
    256, 256, 256, 256, 256, 256, 256, 256, 256, 256, 256, 256, 256, 256, 256, 256, 256, 256, 256,
    256, 256, 256,
];

// A copy of the table: whoever reads many lines makes it once and lends it.
pub fn table() -> [u16; 256]
    ensures { Values result }
{
    VALUES
}

// The byte that two characters spell, if they do.
fn byte_by(values: &[u16; 256], a: u8, b: u8) -> Option<u8>
    requires { Values values.now }
    ensures { result ≡ if_below 256 (byte_of (a ∷ b ∷ [])) }
{
    let byte = 16 * u32::from(values[a as usize]) + u32::from(values[b as usize]);
    if byte < 256 { Some(byte as u8) } else { None }
}

// What a line of these four characters asks: a call, or nothing. As call_header of both bytes, each read whatever the
// other is, a line of the program costs 160, 154, 141 instructions (mixed, waits, full), at best 158, 152, 139, in place of
// 151, 145, 132.
pub fn call_by(values: &[u16; 256], a: u8, b: u8, c: u8, d: u8) -> Header
    requires { Values values.now }
    ensures { result ≡ header_of (request_of (a ∷ b ∷ c ∷ d ∷ [])) }
{
    let Some(code) = byte_by(values, a, b) else {
        return malformed();
    };
    if code < 0x10 || 0x14 < code {
        return malformed();
    }
    let Some(party) = byte_by(values, c, d) else {
        return malformed();
    };
    Header { code, party }
}
