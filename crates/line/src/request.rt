// What a line asks. Refusal 12 is for every line that is neither a call nor an opening.

ghost use Rattle.std.specs.Prelude.{◌≡◌, true, length};
ghost use Rattle.line.specs.Requests.{header_of, is_opening, malformed, request_of, spelled_by, to_open};

use crate::hex::hex_byte;
use crate::openings::{opening_in, read_frame};
use hub::opening::Opening;

// A line of more characters is malformed.
pub const LONGEST: usize = 160;

// A request in two bytes: the code of a call and its party, or one of these codes and FF. No enum, since requests stand
// in a buffer as bytes, two each, in the form in which C gives its calls.
#[derive(Clone, Copy)]
pub struct Header {
    pub code: u8,
    pub party: u8,
}

pub const MALFORMED: u8 = 0x00; // a line that asks nothing

pub const OPENING: u8 = 0x01; // an opening, whatever it asks for

pub(crate) fn malformed() -> Header
    ensures { result ≡ header_of malformed }
{
    Header {
        code: MALFORMED,
        party: 0xFF,
    }
}

// A line of four characters: a call, or malformed. The party is read only behind the code of a call.
fn call_in(line: &[u8]) -> Header
    requires { length line.now ≡ 4 }
    ensures { result ≡ header_of (request_of line.now) }
{
    let Some(code) = hex_byte(line) else {
        return malformed();
    };
    if code < 0x10 || 0x14 < code {
        return malformed();
    }
    let Some(party) = hex_byte(&line[2..]) else {
        return malformed();
    };
    Header { code, party }
}

// The bytes that a line spells, in a buffer that is lent for them; none if it is unreadable.
fn decode<'a>(line: &[u8], bytes: &'a mut [u8; 80]) -> &'a [u8]
    ensures { result.now ≡ spelled_by line.now }
{
    if LONGEST < line.len() || line.len() % 2 == 1 {
        return &[];
    }
    for (i, pair) in line.chunks_exact(2).enumerate() {
        let Some(byte) = hex_byte(pair) else {
            return &[];
        };
        bytes[i] = byte;
    }
    &bytes[..line.len() / 2]
}

// A line is an opening if its bytes are the frame of one.
fn is_opening(line: &[u8]) -> bool
    ensures { result ≡ is_opening (request_of line.now) }
{
    read_frame(decode(line, &mut [0; 80])).is_some()
}

// What a line that is an opening asks for.
pub fn read_opening(line: &[u8]) -> Opening
    requires { is_opening (request_of line.now) ≡ true }
    ensures { to_open result ≡ request_of line.now }
{
    opening_in(decode(line, &mut [0; 80]))
}

// A line of four characters may be a call, and no other.
pub fn read_header(line: &[u8]) -> Header
    ensures { result ≡ header_of (request_of line.now) }
{
    if line.len() == 4 {
        return call_in(line);
    }
    if !is_opening(line) {
        return malformed();
    }
    Header {
        code: OPENING,
        party: 0xFF,
    }
}
