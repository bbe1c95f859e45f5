// The parties of a record: 32 cells, a phase and a ticket each, and 32 marks apart from them.

ghost use Rattle.std.specs.Prelude.{◌<◌, ◌≡◌, length};
ghost use Rattle.layout.specs.Read.{slot_in, slots_in};
ghost use Rattle.layout.specs.Written.{mark_bytes, phase_bytes};

use cells::number::{cell, number_at};
use cells::phase::{mark_of, marked, phase_name, phase_named};
use hub::record::PartySlot;
use hub::slots::{free_slot, with_phase};
use phases::ticket;
use std::array;

fn slot_of(bytes: &[u8], p: usize) -> PartySlot
    requires { (length bytes.now ≡ 1881) × (p < 32) }
    ensures { result ≡ slot_in bytes.now p }
{
    let name = bytes[1302 + 5 * p] % 14;
    let phase = phase_named(name, number_at(bytes, 1303 + 5 * p));
    with_phase(marked(phase, bytes[1817 + p]), free_slot())
}

pub(crate) fn slots_of(bytes: &[u8]) -> [PartySlot; 32]
    requires { length bytes.now ≡ 1881 }
    ensures { result ≡ slots_in bytes.now }
{
    array::from_fn(|p| slot_of(bytes, p))
}

// latchlayout has the same loop over its own slots and names. What is alike is `cell`; a closure that made a cell of a slot
// would stand in both all the same.
fn put_phases(out: &mut [u8], slots: &[PartySlot])
    requires { (length out.old ≡ 160) × (length slots.now ≡ 32) }
    ensures { out.new ≡ phase_bytes slots.now }
{
    for (p, slot) in slots.iter().enumerate() {
        let bytes = cell(phase_name(slot.phase), ticket(slot.phase).unwrap_or(0));
        out[5 * p..5 * p + 5].copy_from_slice(&bytes);
    }
}

pub(crate) fn phase_bytes(slots: [PartySlot; 32]) -> [u8; 160]
    ensures { result ≡ phase_bytes slots }
{
    let mut out = [0u8; 160];
    put_phases(&mut out, &slots);
    out
}

pub(crate) fn marks_of(slots: [PartySlot; 32]) -> [u8; 32]
    ensures { result ≡ mark_bytes slots }
{
    array::from_fn(|p| mark_of(slots[p].phase))
}
