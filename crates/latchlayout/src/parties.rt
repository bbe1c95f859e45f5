// The parties of a record: 32 cells, a phase and a ticket each; apart from them 32 times the hand-overs left, and 32 marks.

ghost use Rattle.std.specs.Prelude.{◌<◌, ◌%◌, cond, ◌≡◌, length};
ghost use Rattle.hub.specs.Phases.{resumes};
ghost use Rattle.latchlayout.specs.Read.{slot_in, slots_in};
ghost use Rattle.latchlayout.specs.Written.{left_bytes, mark_bytes, name_of, phase_bytes};

use cells::number::{cell, number_at};
use cells::phase::{mark_of, marked, phase_name, phase_named};
use hub::record::Phase;
use latch::record::LatchSlot;
use phases::ticket;
use std::array;

fn slot_of(bytes: &[u8], p: usize) -> LatchSlot
    requires { (length bytes.now ≡ 1523) × (p < 32) }
    ensures { result ≡ slot_in bytes.now p }
{
    let name = bytes[1299 + 5 * p] % 15;
    let phase = phase_named(name, number_at(bytes, 1300 + 5 * p));
    LatchSlot {
        phase: marked(phase, bytes[1491 + p]),
        raising: name == 14,
        left: u32::from(bytes[1459 + p]),
    }
}

pub(crate) fn slots_of(bytes: &[u8]) -> [LatchSlot; 32]
    requires { length bytes.now ≡ 1523 }
    ensures { result ≡ slots_in bytes.now }
{
    array::from_fn(|p| slot_of(bytes, p))
}

// The phases of radios are written as holding, which fits no more than they do. Asked is raising, 14, where more is
// said beside it.
#[tactic(auto, unfolding(hub::specs::Phases::is_one_of))]
fn name_of(phase: Phase, raising: bool) -> u8
    ensures { result ≡ name_of phase raising }
{
    match phase {
        Phase::Fetching | Phase::Storing => 1,
        Phase::Acquiring | Phase::AcquiringMarked => if raising { 14 } else { 3 },
        _ => phase_name(phase),
    }
}

// The hand-overs left count where the party carries or hands. Elsewhere a case may have any.
#[tactic(auto, unfolding(hub::specs::Phases::is_one_of))]
fn left_of(phase: Phase, left: u32) -> u8
    ensures { result ≡ cond (resumes phase) (left % 256) 0 }
{
    match phase {
        Phase::Resuming | Phase::ResumingAt(_) => (left % 256) as u8,
        _ => 0,
    }
}

fn put_phases(out: &mut [u8], slots: &[LatchSlot])
    requires { (length out.old ≡ 160) × (length slots.now ≡ 32) }
    ensures { out.new ≡ phase_bytes slots.now }
{
    for (p, slot) in slots.iter().enumerate() {
        let bytes = cell(
            name_of(slot.phase, slot.raising),
            ticket(slot.phase).unwrap_or(0),
        );
        out[5 * p..5 * p + 5].copy_from_slice(&bytes);
    }
}

pub(crate) fn phase_bytes(slots: [LatchSlot; 32]) -> [u8; 160]
    ensures { result ≡ phase_bytes slots }
{
    let mut out = [0u8; 160];
    put_phases(&mut out, &slots);
    out
}

pub(crate) fn lefts_of(slots: [LatchSlot; 32]) -> [u8; 32]
    ensures { result ≡ left_bytes slots }
{
    array::from_fn(|p| left_of(slots[p].phase, slots[p].left))
}

// The hub's slots have the same line in `layout`: one function for both would be longer, for its type and its bound.
pub(crate) fn marks_of(slots: [LatchSlot; 32]) -> [u8; 32]
    ensures { result ≡ mark_bytes slots }
{
    array::from_fn(|p| mark_of(slots[p].phase))
}
