// What a record was opened with, and its radios: whether there are radios, those of the opening, those
// with parties, at places and stored; at the record's end the kinds. A reply shows a radio only where one is, and the store in order.

#![tactic(auto)]

ghost use Rattle.std.specs.Prelude.{◌+◌, ◌≤◌, cond, ◌≡◌, length};
ghost use Rattle.hub.specs.Phases.{is_permit};
ghost use Rattle.cells.specs.Bytes.{bytes_at};
ghost use Rattle.radiobytes.specs.Read.{opening_of_bytes, pool_in, rotated};
ghost use Rattle.radiobytes.specs.Written.{hands_shown, in_order, laid_shown, radio_bytes};

use cells::number::put_bytes_at;
use hub::opening::Opening;
use hub::record::{PartySlot, Place, PlaceSlot, Pool};
use phases::has_radio;
use std::array;

pub fn opening_of(bytes: &[u8]) -> Opening
    requires { length bytes.now ≡ 1881 }
    ensures { result ≡ opening_of_bytes bytes.now }
{
    Opening {
        permits: bytes[0],
        parties: bytes[1],
        named: bytes[1462] % 2 == 1,
        radios: part_at::<32>(bytes, 1463),
        kinds: part_at::<32>(bytes, 1849),
        counted: true,
    }
}

pub fn pool_of(bytes: &[u8]) -> Pool
    requires { length bytes.now ≡ 1881 }
    ensures { result ≡ pool_in bytes.now }
{
    let first = u32::from(bytes[1783]);
    Pool {
        hands: part_at::<32>(bytes, 1495),
        laid: part_at::<256>(bytes, 1527),
        store: rotated(part_at::<32>(bytes, 1785), first),
        first,
        stored: u32::from(bytes[1784] % 33),
    }
}

// The N bytes from here on.
fn part_at<const N: usize>(bytes: &[u8], at: usize) -> [u8; N]
    requires { at + N ≤ length bytes.now }
    ensures { result ≡ bytes_at bytes.now at N }
{
    let mut part = [0u8; N];
    part.copy_from_slice(&bytes[at..at + N]);
    part
}

// A ring that begins at `first`, from its radios in order.
fn rotated(radios: [u8; 32], first: u32) -> [u8; 32]
    ensures { result ≡ rotated radios first }
{
    let begin = (first % 32) as usize;
    array::from_fn(|j| radios[(j + 32 - begin) % 32])
}

// And back, those that are stored.
fn in_order(ring: [u8; 32], first: u32, stored: u32) -> [u8; 32]
    ensures { result ≡ in_order ring first stored }
{
    let begin = (first % 32) as usize;
    array::from_fn(|i| if_so(i < stored as usize, ring[(begin + i) % 32]))
}

// A byte that counts only if this is so.
fn if_so(so: bool, byte: u8) -> u8
    ensures { result ≡ cond so byte 0 }
{
    if so { byte } else { 0 }
}

// Where the party has one.
fn hands_shown(slots: [PartySlot; 32], hands: [u8; 32]) -> [u8; 32]
    ensures { result ≡ hands_shown slots hands }
{
    array::from_fn(|p| if_so(has_radio(slots[p].phase), hands[p]))
}

#[tactic(auto, unfolding(hub::specs::Phases::is_place_of))]
fn is_permit(place: Place) -> bool
    ensures { result ≡ is_permit place }
{
    matches!(place, Place::Permit)
}

// Where a permit lies.
fn laid_shown(places: [PlaceSlot; 256], laid: [u8; 256]) -> [u8; 256]
    ensures { result ≡ laid_shown places laid }
{
    array::from_fn(|i| if_so(is_permit(places[i].place), laid[i]))
}

pub fn radio_bytes(
    opening: Opening,
    slots: [PartySlot; 32],
    places: [PlaceSlot; 256],
    pool: Pool,
) -> [u8; 355]
    ensures { result ≡ radio_bytes opening slots places pool }
{
    let mut out = [0u8; 355];
    if !opening.named {
        return out;
    }
    put_bytes_at(&mut out, 0, &[1]);
    put_bytes_at(&mut out, 1, &opening.radios);
    put_bytes_at(&mut out, 33, &hands_shown(slots, pool.hands));
    put_bytes_at(&mut out, 65, &laid_shown(places, pool.laid));
    put_bytes_at(&mut out, 321, &[0, (pool.stored % 256) as u8]);
    put_bytes_at(
        &mut out,
        323,
        &in_order(pool.store, pool.first, pool.stored),
    );
    out
}
