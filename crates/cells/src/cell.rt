// The places of a record, 256 cells: a state, and the party that waits there.

ghost use Rattle.std.specs.Prelude.{◌+◌, ◌≤◌, ◌≡◌, length};
ghost use Rattle.cells.specs.Places.{place_bytes, place_named, places_at, seat_at, waiter_of};

use crate::number::{cell, number_at};
use hub::record::{Place, PlaceSlot};
use hub::slots::{empty_seat, with_place};
use phases::place_rank;
use std::array;

// A byte that names nothing counts by its remainder, and so does a party that a place has no room for.
fn place_named(name: u8, party: u32) -> Place
    ensures { result ≡ place_named name party }
{
    match name % 6 {
        0 => Place::Empty,
        1 => Place::Waiting((party % 256) as u8),
        2 => Place::Permit,
        3 => Place::Cancelled,
        4 => Place::Refused,
        _ => Place::Done,
    }
}

fn waiter_of(place: Place) -> u32
    ensures { result ≡ waiter_of place }
{
    match place {
        Place::Waiting(party) => u32::from(party),
        _ => 0,
    }
}

// The place in the five bytes from here on.
fn seat_at(bytes: &[u8], at: usize) -> PlaceSlot
    requires { at + 5 ≤ length bytes.now }
    ensures { result ≡ seat_at bytes.now at }
{
    let place = place_named(bytes[at], number_at(bytes, at + 1));
    with_place(place, empty_seat())
}

pub fn places_at(bytes: &[u8], at: usize) -> [PlaceSlot; 256]
    requires { at + 1280 ≤ length bytes.now }
    ensures { result ≡ places_at bytes.now at }
{
    array::from_fn(|i| seat_at(bytes, at + 5 * i))
}

fn put_places(out: &mut [u8], places: &[PlaceSlot])
    requires { (length out.old ≡ 1280) × (length places.now ≡ 256) }
    ensures { out.new ≡ place_bytes places.now }
{
    for (i, seat) in places.iter().enumerate() {
        let bytes = cell(place_rank(seat.place), waiter_of(seat.place));
        out[5 * i..5 * i + 5].copy_from_slice(&bytes);
    }
}

// Into a buffer: cells that are mapped and then flattened did not prove, what a closure answers being an array of five.
pub fn place_bytes(places: [PlaceSlot; 256]) -> [u8; 1280]
    ensures { result ≡ place_bytes places }
{
    let mut out = [0u8; 1280];
    put_places(&mut out, &places);
    out
}
