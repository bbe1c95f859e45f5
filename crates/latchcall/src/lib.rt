// Any call of a latch by value: a record in, the answer and the record out, for every record and every party byte. A
// refusal hands the record back as it came.

#![tactic(auto)]

ghost use Rattle.std.specs.Prelude.{◌≡◌};
ghost use Rattle.hub.specs.Answers.{printed};
ghost use Rattle.latch.specs.Calls.{called};

use hub::answers::{Answer, Refusal};
use hub::record::Hub;
use hub::slots::empty_seat;
use latch::moves::{LatchOp, LatchSight};
use latch::record::{Latch, LatchOutcome};
use latchfit::fits;
use latchmove::effect::decide;
use latchmove::sight::{by_ticket, seat_index, slot_within};
use openhub::kinds::{built_in, kind_in};
use ring::{PlaceRing, reclaim};
use transition::sight::waiter_at;
use transition::tidy::is_untidy;

// Check, look, store and tidy stand in one function, as the hub's, since a record that is
// handed on is copied. A refused call stores what was there. It is not one function with the hub's: a latch
// has no control block, radios or kinds of its own, so that one over both records would need a trait with a
// function to read and one to store for each of ten fields, which is longer than the two are.
pub fn call(mut latch: Latch, op: LatchOp, party: u8) -> LatchOutcome
    ensures { (result ≡ called latch (record { op = op; party = party }))
        × (printed result.answer ≡ printed (called latch (record { op = op; party = party })).answer) }
{
    if !fits(latch) {
        return LatchOutcome {
            answer: Answer::Refused(Refusal::Unfit),
            latch,
        };
    }
    if latch.parties <= party {
        return LatchOutcome {
            answer: Answer::Refused(Refusal::NoSuchParty),
            latch,
        };
    }
    let p = party as usize;
    let slot = latch.slots[p];
    let t = seat_index(slot);
    let there = latch.places[t];
    let seat = by_ticket(slot, there, empty_seat());
    let q = waiter_at(seat);
    let s = LatchSight {
        party,
        kind: kind_in(built_in(), party),
        slot,
        seat,
        waiter: slot_within(q, latch.slots[(q % 32) as usize]),
        figures: latch.figures,
    };
    let e = decide(op, latch.oldest, latch.slots, s);
    if e.woken < 32 {
        latch.slots[e.woken as usize] = e.waiter;
    }
    latch.slots[p] = e.slot;
    latch.places[t] = by_ticket(slot, e.seat, there);
    latch.figures = e.figures;
    // the tidying, if there is any
    let ahead = latch.places[(latch.figures.resumed % Hub::PLACES) as usize];
    let behind = latch.places[(latch.oldest % Hub::PLACES) as usize];
    if is_untidy(ahead, behind) {
        let places = latch.places;
        let ring = PlaceRing {
            resumed: latch.figures.resumed,
            oldest: latch.oldest,
            places,
        };
        let tidied = reclaim(ring, e.turns);
        latch.figures.resumed = tidied.resumed;
        latch.oldest = tidied.oldest;
        let left = tidied.places;
        latch.places = left;
    }
    LatchOutcome {
        answer: e.answer,
        latch,
    }
}
