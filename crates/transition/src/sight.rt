// What a call looks at, from what lies in the arrays. The place is read whether or not the party has a
// ticket: one without looks at no place, whatever lies there.

ghost use Rattle.std.specs.Prelude.{◌≡◌, cond, ◌%◌, ltb};
ghost use Rattle.hub.specs.Phases.{by_waiter, ticket_of};
ghost use Rattle.hub.specs.Record.{PARTIES, free_slot};
ghost use Rattle.hub.specs.Ring.{PLACES};

use hub::record::{Hub, PartySlot, Place, PlaceSlot};
use hub::slots::free_slot;
use phases::ticket;

// Where the place of a party's ticket lies in the ring; 0 if it has none.
pub fn seat_index(slot: PartySlot) -> usize
    ensures { result ≡ ticket_of slot.phase % PLACES }
{
    (ticket(slot.phase).unwrap_or(0) % Hub::PLACES) as usize
}

// The party that waits at a place; 32, the first number past the slots, where nobody does. Option forms were tried
// together with one of `woken`, and were dearer (`Effect`, crates/effects, has the figures).
pub fn waiter_at(seat: PlaceSlot) -> u32
    ensures { result ≡ by_waiter PARTIES (λ q. q) seat.place }
{
    let place = seat.place;
    match place {
        Place::Waiting(q) => q as u32,
        _ => 32,
    }
}

// The slot of party q, which is the one at hand if there is such a party; free past the slots.
pub fn slot_within(q: u32, near: PartySlot) -> PartySlot
    ensures { result ≡ cond (ltb q PARTIES) near free_slot }
{
    if q < 32 {
        return near;
    }
    free_slot()
}
