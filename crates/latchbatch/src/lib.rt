// Calls of an open latch answered one after the other, from bytes to bytes. The record's arrays and
// figures are locals while they are, altered in place. A record that is reached from an opening fits:
// so there is no check of the whole record here.

#![tactic(auto)]

mod wire; // calls and answers as bytes

ghost use Rattle.std.specs.Prelude.{◌≡◌, ◌*◌, ◌≤◌, length};
ghost use Rattle.latch.specs.Schedule.{run};
ghost use Rattle.latchbatch.specs.Batch.{Lasting, answered, calls_in};

use crate::wire::{op_at, party_at, put_at};
use hub::answers::{Answer, Refusal};
use hub::record::Hub;
use hub::slots::empty_seat;
use latch::moves::LatchSight;
use latch::record::Latch;
use latchdecide::calls::decide_by;
use latchmove::room::full_for;
use latchmove::sight::{by_ticket, seat_index, slot_within};
use openhub::kinds;
use ring::{PlaceRing, reclaim};
use transition::sight::waiter_at;
use transition::tidy::is_untidy;

// Answers the first `count` calls, of two bytes each, in seven bytes each. It is not one function with the hub's
// loop, for the reason that stands beside `latchcall::call`, and here the places are a local, not a ring of theirs.
pub fn answer_calls(latch: Latch, calls: &[u8], count: usize, out: &mut [u8]) -> Latch
    requires lasting { Lasting latch }
    requires count_in_bounds { 2 * count ≤ length calls.now }
    requires count_in_bounds_2 { 7 * count ≤ length out.old }
    ensures { (result ≡ run latch (calls_in count calls.now))
        × (out.new ≡ answered latch count calls.now out.old) }
{
    let parties = latch.parties;
    let mut figures = latch.figures;
    let mut oldest = latch.oldest;
    let mut places = latch.places;
    let mut slots = latch.slots;
    let kinds = kinds::built_in();
    for i in 0..count {
        let party = party_at(calls, i);
        if parties <= party {
            put_at(out, i, party, Answer::Refused(Refusal::NoSuchParty));
            continue;
        }
        let own = party as usize;
        let slot = slots[own];
        let t = seat_index(slot);
        let there = places[t];
        let seat = by_ticket(slot, there, empty_seat());
        let q = waiter_at(seat);
        let op = op_at(calls, i);
        let full = full_for(op, oldest, figures.issued, slots);
        let s = LatchSight {
            party,
            kind: kinds[own],
            slot,
            seat,
            waiter: slot_within(q, slots[(q % 32) as usize]),
            figures,
        };
        let e = decide_by(op, full, s);
        if e.woken < 32 {
            slots[e.woken as usize] = e.waiter;
        }
        slots[own] = e.slot;
        figures = e.figures;
        places[t] = by_ticket(slot, e.seat, there);
        put_at(out, i, party, e.answer);
        // mostly there is nothing to tidy
        let ahead = places[(figures.resumed % Hub::PLACES) as usize];
        let behind = places[(oldest % Hub::PLACES) as usize];
        if !is_untidy(ahead, behind) {
            continue;
        }
        let ring = PlaceRing {
            resumed: figures.resumed,
            oldest,
            places,
        };
        let tidied = reclaim(ring, e.turns);
        figures.resumed = tidied.resumed;
        oldest = tidied.oldest;
        places = tidied.places;
    }
    Latch {
        parties,
        figures,
        oldest,
        places,
        slots,
    }
}
