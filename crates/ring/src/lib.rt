// The tidying of a ring of places. It is handed on apart from its record, of which nothing else is copied; both loops
// are one function, since each that is called by itself copies the ring again.

#![tactic(auto)]

ghost use Rattle.std.specs.Prelude.{◌≡◌, ◌≤◌};
ghost use Rattle.transition.specs.Tidied.{reclaimed_by};
ghost use Rattle.ring.specs.Code.{ring_in};

use hub::record::{Hub, Place, PlaceSlot};
use hub::slots::{empty_seat, with_place};
use transition::tidy::{can_retire, can_skip};

// What the tidying looks at and moves.
#[derive(Clone, Copy)]
pub struct PlaceRing {
    pub resumed: u32, // the next ticket to resume
    pub oldest: u32, // the first ticket that has a place
    pub places: [PlaceSlot; 256],
}

// Passes the cancelled places at the next ticket to resume, then frees those at the oldest that are done, so many of
// each at most.
pub fn reclaim(mut ring: PlaceRing, turns: u32) -> PlaceRing
    requires { (ring.oldest ≤ 1000000) × (turns ≤ 256) }
    ensures { ring_in result ≡ reclaimed_by turns (ring_in ring) }
{
    let end = ring.oldest + Hub::PLACES;
    for _ in 0..turns {
        let i = (ring.resumed % Hub::PLACES) as usize;
        if !can_skip(ring.places[i], ring.resumed, end) {
            break;
        }
        ring.places[i] = with_place(Place::Done, ring.places[i]);
        ring.resumed += 1;
    }
    for _ in 0..turns {
        let i = (ring.oldest % Hub::PLACES) as usize;
        if !can_retire(ring.places[i]) {
            break;
        }
        ring.places[i] = empty_seat();
        ring.oldest += 1;
    }
    ring
}
