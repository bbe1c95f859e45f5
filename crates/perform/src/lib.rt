// Whole operations on a hub at rest, one after the other: ask, give up, give back, each with the steps that it
// takes until everybody is at rest again. The steps are not walked: what they come to is stored. The record's
// arrays and figures are locals meanwhile, altered in place, as in the crate batch; and no record is checked.

#![tactic(auto)]

mod wire; // answers as bytes

ghost use Rattle.std.specs.Prelude.{◌≡◌, true, ◌*◌, ◌/◌, ◌≤◌, length};
ghost use Rattle.run.specs.Bytes.{well_formed};
ghost use Rattle.perform.specs.Bytes.{answers_written, is_operation_code};
ghost use Rattle.perform.specs.Rested.{Rested};

use crate::wire::put_at;
use exchange::wire::{code_at, party_at};
use hub::record::{Hub, Phase};
use hub::slots::with_phase;
use plan::{Seen, is_full_for, place_for, plan_for, radios_after_operation};
use tidystep::Tidying;

// Performs the operations, two bytes each, on a hub at rest.
pub fn perform_operations(hub: Hub, operations: &[u8], out: &mut [u8])
    requires rested { Rested hub }
    requires operations_value { well_formed is_operation_code operations.now ≡ true }
    requires operations_in_bounds { 3 * (length operations.now / 2) ≤ length out.old }
    ensures { out.new ≡ answers_written hub operations.now out.old }
{
    let opening = hub.control.opening;
    let mut figures = hub.control.figures;
    let mut oldest = hub.control.oldest;
    let mut places = hub.places;
    let mut slots = hub.slots;
    let mut pool = hub.control.pool;
    for i in 0..operations.len() / 2 {
        let code = code_at(operations, i);
        let party = party_at(operations, i);
        if opening.parties <= party {
            put_at(out, i, 4, 0xFF, 0);
            continue;
        }
        let own = party as usize;
        let t = place_for(code, slots[own], figures);
        let full = is_full_for(code, oldest, figures.issued);
        let s = Seen {
            party,
            kind: opening.kinds[own],
            named: opening.named,
            slot: slots[own],
            seat: places[t],
            figures,
        };
        let plan = plan_for(code, full, s);
        if plan.woken < 32 {
            let q = plan.woken as usize;
            slots[q] = with_phase(Phase::Holding, slots[q]);
        }
        slots[own] = plan.slot;
        places[t] = plan.seat;
        put_at(out, i, plan.code, plan.woken, plan.steps);
        if opening.named {
            pool = radios_after_operation(code, plan.steps, plan.woken, party, pool);
        }
        figures = plan.figures;
        let mut tidying = Tidying {
            resumed: figures.resumed,
            oldest,
            skips: plan.turns,
            retires: plan.turns,
        };
        while 0 < tidying.retires {
            let turn = tidying.step(
                places[(tidying.resumed % Hub::PLACES) as usize],
                places[(tidying.oldest % Hub::PLACES) as usize],
            );
            places[(turn.ticket % Hub::PLACES) as usize] = turn.seat;
            tidying = turn.left;
        }
        figures.resumed = tidying.resumed;
        oldest = tidying.oldest;
    }
}
