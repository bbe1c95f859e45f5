// Any call of the hub by value: a record in, the answer and the record out, for every record and
// every party byte. A refusal hands the record back as it came.

#![tactic(auto)]

ghost use Rattle.std.specs.Prelude.{◌≡◌};
ghost use Rattle.hub.specs.Answers.{printed};
ghost use Rattle.hub.specs.Calls.{called};

use fit::fits;
use hub::answers::{Answer, Refusal};
use hub::moves::{Op, Sight};
use hub::record::{Hub, Outcome};
use pool::moving::move_radio;
use ring::{PlaceRing, reclaim};
use transition::effect::decide;
use transition::sight::{seat_index, slot_within, waiter_at};
use transition::tidy::is_untidy;

// Check, look, store and tidy stand in one function, since a record that is handed
// on is copied; what goes to other functions is small. A refused call stores what was there, and so do 37 and 39.
pub fn call(mut hub: Hub, op: Op, party: u8) -> Outcome
    ensures { (result ≡ called hub (record { op = op; party = party }))
        × (printed result.answer ≡ printed (called hub (record { op = op; party = party })).answer) }
{
    if !fits(hub) {
        return Outcome {
            answer: Answer::Refused(Refusal::Unfit),
            hub,
        };
    }
    if hub.control.opening.parties <= party {
        return Outcome {
            answer: Answer::Refused(Refusal::NoSuchParty),
            hub,
        };
    }
    let p = party as usize;
    let slot = hub.slots[p];
    let t = seat_index(slot);
    let seat = hub.places[t];
    let q = waiter_at(seat);
    let w = (q % 32) as usize;
    let near = hub.slots[w];
    let waiter = slot_within(q, near);
    let figures = hub.control.figures;
    let hands = hub.control.pool.hands;
    let radio = hands[p];
    let kinds = hub.control.opening.kinds;
    let kind = kinds[p];
    let s = Sight {
        party,
        kind,
        slot,
        seat,
        waiter,
        figures,
        named: hub.control.opening.named,
        radio,
        stocked: 0 < hub.control.pool.stored,
    };
    let slots = hub.slots;
    let e = decide(op, hub.control.oldest, slots, s);
    let woken = e.woken;
    if woken < 32 {
        let v = woken as usize;
        let woke = e.waiter;
        hub.slots[v] = woke;
    }
    let own = e.slot;
    hub.slots[p] = own;
    let put = e.seat;
    hub.places[t] = put;
    // stored by a copy of the control block, which the compiler leaves out
    let after = e.figures;
    let mut control = hub.control;
    control.figures = after;
    hub.control = control;
    let answer = e.answer;
    if hub.control.opening.named {
        let pool = hub.control.pool;
        let moved = move_radio(answer, party, pool);
        let mut control = hub.control;
        control.pool = moved;
        hub.control = control;
    }
    // the tidying, if there is any
    let r = (hub.control.figures.resumed % Hub::PLACES) as usize;
    let o = (hub.control.oldest % Hub::PLACES) as usize;
    let next = hub.places[r];
    let first = hub.places[o];
    if !is_untidy(next, first) {
        return Outcome { answer, hub };
    }
    let places = hub.places;
    let ring = PlaceRing {
        resumed: hub.control.figures.resumed,
        oldest: hub.control.oldest,
        places,
    };
    let tidied = reclaim(ring, e.turns);
    hub.control.figures.resumed = tidied.resumed;
    hub.control.oldest = tidied.oldest;
    let left = tidied.places;
    hub.places = left;
    Outcome { answer, hub }
}
