// What a call does, whichever it is.

ghost use Rattle.std.specs.Prelude.{◌≡◌, ◌≤◌};
ghost use Rattle.latch.specs.Calls.{is_full};
ghost use Rattle.latcheffect.specs.Effect.{effect_by};
ghost use Rattle.latcheffect.specs.Small.{Small};

use crate::room::full_for;
use latch::moves::{LatchOp, LatchSight};
use latch::record::LatchSlot;
use latchdecide::calls::decide_by;
use latcheffect::effect::LatchEffect;

pub fn decide(op: LatchOp, oldest: u32, slots: [LatchSlot; 32], s: LatchSight) -> LatchEffect
    requires { Small s × (oldest ≤ 1000000) }
    ensures { result ≡ effect_by op (is_full oldest s.figures.issued slots) s }
{
    decide_by(op, full_for(op, oldest, s.figures.issued, slots), s)
}
