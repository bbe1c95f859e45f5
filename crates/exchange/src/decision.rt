// What an admitted call does, decided from what the loop read for it. What the table looks at is put together here, and
// the radio moved, so that the loop has few locals: each is carried through all of its proof.

ghost use Rattle.std.specs.Prelude.{◌≡◌, ◌≤◌};
ghost use Rattle.hub.specs.Answers.{printed};
ghost use Rattle.hub.specs.Calls.{is_full};
ghost use Rattle.hub.specs.Radios.{moved};
ghost use Rattle.hub.specs.Table;
ghost use Rattle.effects.specs.Effect.{effect_of};
ghost use Rattle.effects.specs.Small.{Small};
ghost use Rattle.encoding.specs.Frame.{op_of};
ghost use Rattle.transition.specs.Room.{full_for};
ghost use Rattle.exchange.specs.Decision.{sight_by};

use crate::admission::op_of;
use effects::effect::Effect;
use hub::moves::Sight;
use hub::record::{Figures, PartySlot, PlaceSlot, Pool};
use pool::moving::move_radio;
use transition::effect::decide_by;
use transition::room::full_for;
use transition::sight::{slot_within, waiter_at};

// Refusal 7, for the call of a code.
pub fn full_by(code: u8, oldest: u32, issued: u32, slots: [PartySlot; 32]) -> bool
    requires { (oldest ≤ 1000000) × (issued ≤ 1000000) }
    ensures { result ≡ full_for (op_of code) (is_full oldest issued slots) }
{
    full_for(op_of(code), oldest, issued, slots)
}

// What the call of a code does. `near` is the slot of the party that waits at the place, whatever it is where nobody does.
pub fn decide_for(
    code: u8,
    full: bool,
    party: u8,
    kind: u8,
    slot: PartySlot,
    seat: PlaceSlot,
    near: PartySlot,
    figures: Figures,
    named: bool,
    radio: u8,
    stored: u32,
) -> Effect
    requires { Small (sight_by party kind slot seat near figures named radio stored) }
    ensures { result
        ≡ effect_of (Table.decide (op_of code) full (sight_by party kind slot seat near figures named radio stored))
        (sight_by party kind slot seat near figures named radio stored) }
{
    let q = waiter_at(seat);
    let waiter = slot_within(q, near);
    let s = Sight {
        party,
        kind,
        slot,
        seat,
        waiter,
        figures,
        named,
        radio,
        stocked: 0 < stored,
    };
    decide_by(op_of(code), full, s)
}

// Who has which radio, on a hub with radios.
pub fn radios_after(e: Effect, party: u8, pool: Pool) -> Pool
    requires { pool.stored ≤ 32 }
    ensures { result ≡ moved (printed e.answer) party pool }
{
    move_radio(e.answer, party, pool)
}
