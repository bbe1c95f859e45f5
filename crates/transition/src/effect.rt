// What a call does, whichever it is.

ghost use Rattle.std.specs.Prelude.{◌≡◌, ◌≤◌};
ghost use Rattle.hub.specs.Calls.{is_full};
ghost use Rattle.hub.specs.Table;
ghost use Rattle.effects.specs.Effect.{effect_of};
ghost use Rattle.effects.specs.Small.{Small};

use crate::room::full_for;
use effects::effect::Effect;
use effects::others::{decide_acquire, decide_cancel, decide_radio, decide_release};
use hub::moves::{Op, Sight};
use hub::record::PartySlot;
use table::rows::decide_step;

// `full`: is there no place for one more ticket? Only an ask looks at it.
#[tactic(auto, unfolding(hub::specs::Table::decide))]
pub fn decide_by(op: Op, full: bool, s: Sight) -> Effect
    requires { Small s }
    ensures { result ≡ effect_of (Table.decide op full s) s }
{
    match op {
        Op::Step => decide_step(s),
        Op::Acquire => decide_acquire(full, s),
        Op::Cancel => decide_cancel(s),
        Op::Release => decide_release(s),
        Op::Radio => decide_radio(s),
    }
}

#[tactic(auto, unfolding(hub::specs::Table::decide))]
pub fn decide(op: Op, oldest: u32, slots: [PartySlot; 32], s: Sight) -> Effect
    requires { Small s × (oldest ≤ 1000000) }
    ensures { result ≡ effect_of (Table.decide op (is_full oldest s.figures.issued slots) s) s }
{
    decide_by(op, full_for(op, oldest, s.figures.issued, slots), s)
}
