// A record of a latch as 1523 bytes, and back, for the program that makes a call on any record;
// tests/README.md lays them out.

#![tactic(auto)]

mod figures; // the numbers in front
mod parties; // phases, hand-overs left and marks

ghost use Rattle.std.specs.Prelude.{◌≡◌, length};
ghost use Rattle.latchlayout.specs.Read.{record_in};
ghost use Rattle.latchlayout.specs.Written.{record_bytes};

use cells::cell::{place_bytes, places_at};
use cells::number::{number_at, put_bytes_at};
use figures::{figure_bytes, figures_of};
use latch::record::Latch;
use parties::{lefts_of, marks_of, phase_bytes, slots_of};

pub fn record_of(bytes: &[u8]) -> Latch
    requires { length bytes.now ≡ 1523 }
    ensures { result ≡ record_in bytes.now }
{
    Latch {
        parties: bytes[0],
        figures: figures_of(bytes),
        oldest: number_at(bytes, 15),
        places: places_at(bytes, 19),
        slots: slots_of(bytes),
    }
}

pub fn record_bytes(latch: Latch) -> [u8; 1523]
    ensures { result ≡ record_bytes latch }
{
    let mut out = [0u8; 1523];
    put_bytes_at(&mut out, 0, &figure_bytes(latch));
    put_bytes_at(&mut out, 19, &place_bytes(latch.places));
    put_bytes_at(&mut out, 1299, &phase_bytes(latch.slots));
    put_bytes_at(&mut out, 1459, &lefts_of(latch.slots));
    put_bytes_at(&mut out, 1491, &marks_of(latch.slots));
    out
}
