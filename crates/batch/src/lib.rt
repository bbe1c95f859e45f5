// Requests of an open hub answered one after the other, by lines of text or by bytes. The record's
// arrays and figures are parameters, altered in place. A record that is reached from an opening fits, and
// that is proved: so there is no check of the whole record here. The crate `requests` hands a whole record over.

#![tactic(auto)]

ghost use Rattle.std.specs.Prelude.{◌≡◌, ◌*◌, ◌≤◌, length};
ghost use Rattle.encoding.specs.Form.{reply_size};
ghost use Rattle.encoding.specs.Tables.{Pairs};
ghost use Rattle.line.specs.Program.{after};
ghost use Rattle.batch.specs.Batch.{Reachable, of_parts, replied, requests_in};

use exchange::decision::{decide_for, full_by, radios_after};
use exchange::wire::{admit_at, code_at, party_at, put_answer, put_refusal};
use hub::opening::Opening;
use hub::record::{Figures, Hub, PartySlot, Pool};
use ring::{PlaceRing, reclaim};
use transition::sight::{seat_index, waiter_at};
use transition::tidy::is_untidy;
use writer::form::Form;

// What the requests leave of a record; its opening stays as it was.
#[derive(Clone, Copy)]
pub struct Parts {
    pub figures: Figures,
    pub ring: PlaceRing,
    pub slots: [PartySlot; 32],
    pub pool: Pool,
}

// Answers the first `count` requests, of two bytes each, in a form. A record's parts are its
// parameters, so that nothing but the loop is in the function, which is dear to prove.
pub fn answer_in_turn<F: Form>(
    opening: Opening,
    mut figures: Figures,
    mut ring: PlaceRing,
    mut slots: [PartySlot; 32],
    mut pool: Pool,
    pairs: &[u16; 256],
    requests: &[u8],
    count: usize,
    out: &mut [u8],
) -> Parts
    requires reachable { Reachable (of_parts opening figures ring slots pool) }
    requires pairs { Pairs pairs.now }
    requires count_in_bounds { 2 * count ≤ length requests.now }
    requires count_in_bounds_2 { reply_size F.form * count ≤ length out.old }
    ensures { (of_parts opening result.figures result.ring result.slots result.pool
        ≡ after (of_parts opening figures ring slots pool) (requests_in count requests.now))
        × (out.new
        ≡ replied F.form (of_parts opening figures ring slots pool) count requests.now
        out.old) }
{
    let kinds = opening.kinds;
    for i in 0..count {
        match admit_at(requests, i, opening.parties) {
            Ok(()) => {}
            Err(why) => {
                put_refusal::<F>(pairs, out, i, why.party(), why.code());
                continue;
            }
        }
        let code = code_at(requests, i);
        let party = party_at(requests, i);
        let own = party as usize;
        let slot = slots[own];
        let t = seat_index(slot);
        let seat = ring.places[t];
        let q = waiter_at(seat);
        let full = full_by(code, ring.oldest, figures.issued, slots);
        let e = decide_for(
            code,
            full,
            party,
            kinds[own],
            slot,
            seat,
            slots[(q % 32) as usize],
            figures,
            opening.named,
            pool.hands[own],
            pool.stored,
        );
        let woken = e.woken;
        if woken < 32 {
            slots[woken as usize] = e.waiter;
        }
        slots[own] = e.slot;
        figures = e.figures;
        ring.places[t] = e.seat;
        put_answer::<F>(pairs, out, i, party, e);
        if opening.named {
            pool = radios_after(e, party, pool);
        }
        // mostly there is nothing to tidy
        let ahead = ring.places[(figures.resumed % Hub::PLACES) as usize];
        let behind = ring.places[(ring.oldest % Hub::PLACES) as usize];
        if !is_untidy(ahead, behind) {
            continue;
        }
        ring.resumed = figures.resumed;
        ring = reclaim(ring, e.turns);
        figures.resumed = ring.resumed;
    }
    Parts {
        figures,
        ring,
        slots,
        pool,
    }
}
