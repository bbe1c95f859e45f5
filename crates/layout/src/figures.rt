// The numbers in front of a record: K, n, the figures, and the first ticket that has a place.

ghost use Rattle.std.specs.Prelude.{◌≡◌, length};
ghost use Rattle.layout.specs.Read.{figures_in, signed};
ghost use Rattle.layout.specs.Written.{figure_bytes};

use cells::number::{four_numbers, number_at, put_bytes_at};
use encoding::signed::twos_complement;
use hub::record::{Figures, Hub};

// A number from its two's complement.
fn signed(n: u32) -> i32
    ensures { result ≡ signed n }
{
    n.cast_signed()
}

pub(crate) fn figures_of(bytes: &[u8]) -> Figures
    requires { length bytes.now ≡ 1881 }
    ensures { result ≡ figures_in bytes.now }
{
    Figures {
        counter: signed(number_at(bytes, 2)),
        issued: number_at(bytes, 6),
        resumed: number_at(bytes, 10),
        begun: number_at(bytes, 14),
    }
}

pub(crate) fn figure_bytes(hub: Hub) -> [u8; 22]
    ensures { result ≡ figure_bytes hub }
{
    let opening = hub.control.opening;
    let figures = hub.control.figures;
    let mut out = [0u8; 22];
    put_bytes_at(&mut out, 0, &[opening.permits, opening.parties]);
    put_bytes_at(&mut out, 2, &twos_complement(figures.counter).to_be_bytes());
    put_bytes_at(
        &mut out,
        6,
        &four_numbers(
            figures.issued,
            figures.resumed,
            figures.begun,
            hub.control.oldest,
        ),
    );
    out
}
