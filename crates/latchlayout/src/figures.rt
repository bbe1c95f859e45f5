// The numbers in front of a record: n, the figures, and the first ticket that has a place.

ghost use Rattle.std.specs.Prelude.{◌≡◌, length};
ghost use Rattle.latchlayout.specs.Read.{figures_in};
ghost use Rattle.latchlayout.specs.Written.{figure_bytes};

use cells::number::{four_numbers, number_at, put_bytes_at};
use latch::record::{Latch, LatchFigures};

pub(crate) fn figures_of(bytes: &[u8]) -> LatchFigures
    requires { length bytes.now ≡ 1523 }
    ensures { result ≡ figures_in bytes.now }
{
    LatchFigures {
        count: u32::from(bytes[1]),
        waiters: u32::from(bytes[2]),
        issued: number_at(bytes, 3),
        resumed: number_at(bytes, 7),
        begun: number_at(bytes, 11),
    }
}

pub(crate) fn figure_bytes(latch: Latch) -> [u8; 19]
    ensures { result ≡ figure_bytes latch }
{
    let figures = latch.figures;
    let count = (figures.count % 256) as u8;
    let waiters = (figures.waiters % 256) as u8;
    let mut out = [0u8; 19];
    put_bytes_at(&mut out, 0, &[latch.parties, count, waiters]);
    put_bytes_at(
        &mut out,
        3,
        &four_numbers(figures.issued, figures.resumed, figures.begun, latch.oldest),
    );
    out
}
