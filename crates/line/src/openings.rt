// An opening as a frame: 01, K, n; or 02, K, n and K radios. Either may be followed by kinds.

ghost use Rattle.std.specs.Prelude.{◌≡◌, true};
ghost use Rattle.hub.specs.Radios.{padded};
ghost use Rattle.line.specs.Requests.{given_kinds, is_opening, opening_asked, radios_given, requested, to_open};

use hub::opening::Opening;
use openhub::kinds::built_in;

// The first 32 bytes of a part; where it has fewer, 0 behind them.
fn padded(part: &[u8]) -> [u8; 32]
    ensures { result ≡ padded part.now }
{
    let mut bytes = [0u8; 32];
    let count = part.len().min(32);
    bytes[..count].copy_from_slice(&part[..count]);
    bytes
}

// An opening that is given kinds, those that are here.
fn given_kinds(kinds: &[u8], o: Opening) -> Opening
    ensures { result ≡ given_kinds kinds.now o }
{
    match kinds.len() {
        0 => o,
        32 => Opening {
            kinds: padded(kinds),
            counted: true,
            ..o
        },
        _ => Opening {
            kinds: built_in(),
            counted: false,
            ..o
        },
    }
}

// How many radios an opening of this code gives, if it is a code of one.
fn radios_given(code: u8, permits: u8) -> Option<usize>
    ensures { result ≡ radios_given code permits }
{
    match code {
        0x01 => Some(0),
        0x02 => Some(permits as usize),
        _ => None,
    }
}

// What a frame asks for, if it is an opening.
pub fn read_frame(bytes: &[u8]) -> Option<Opening>
    ensures { result ≡ opening_asked (requested bytes.now) }
{
    let [code, permits, parties, rest @ ..] = bytes else {
        return None;
    };
    let given = radios_given(*code, *permits)?;
    let (radios, kinds) = rest.split_at_checked(given)?;
    let o = Opening {
        permits: *permits,
        parties: *parties,
        named: *code == 0x02,
        radios: padded(radios),
        kinds: built_in(),
        counted: true,
    };
    Some(given_kinds(kinds, o))
}

// What a frame that is an opening asks for.
pub fn opening_in(bytes: &[u8]) -> Opening
    requires { is_opening (requested bytes.now) ≡ true }
    ensures { to_open result ≡ requested bytes.now }
{
    read_frame(bytes).unwrap()
}
