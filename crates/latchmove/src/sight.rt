// What a call looks at, from what lies in the arrays. `seat_index` and `slot_within` are as the hub's, for the reason
// that stands in `room`.

ghost use Rattle.std.specs.Prelude.{◌≡◌, cond, ◌%◌, ltb};
ghost use Rattle.hub.specs.Phases.{by_ticket, ticket_of};
ghost use Rattle.hub.specs.Record.{PARTIES};
ghost use Rattle.hub.specs.Ring.{PLACES};
ghost use Rattle.latch.specs.Record.{free_slot};

use hub::record::{Hub, PlaceSlot};
use latch::opening::free_slot;
use latch::record::LatchSlot;
use phases::ticket;

// Where the place of a party's ticket lies in the ring; 0 if it has none.
pub fn seat_index(slot: LatchSlot) -> usize
    ensures { result ≡ ticket_of slot.phase % PLACES }
{
    (ticket(slot.phase).unwrap_or(0) % Hub::PLACES) as usize
}

// A place for a party that has a ticket, another for one that has none.
pub fn by_ticket(slot: LatchSlot, seat: PlaceSlot, otherwise: PlaceSlot) -> PlaceSlot
    ensures { result ≡ by_ticket otherwise (λ t. seat) slot.phase }
{
    match ticket(slot.phase) {
        Some(_) => seat,
        None => otherwise,
    }
}

// The slot of party q, which is the one at hand if there is such a party; free past the slots.
pub fn slot_within(q: u32, near: LatchSlot) -> LatchSlot
    ensures { result ≡ cond (ltb q PARTIES) near free_slot }
{
    if q < 32 {
        return near;
    }
    free_slot()
}
