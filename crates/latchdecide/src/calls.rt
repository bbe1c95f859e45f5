// What a call does, whichever it is.

ghost use Rattle.std.specs.Prelude.{◌≡◌};
ghost use Rattle.latcheffect.specs.Effect.{effect_by};
ghost use Rattle.latcheffect.specs.Small.{Small};

use crate::others::{decide_await, decide_cancel, decide_count_down};
use crate::steps::decide_step;
use latch::moves::{LatchOp, LatchSight};
use latcheffect::effect::LatchEffect;

// `full`: is there no place for one more ticket? Only an await looks at it.
#[tactic(auto, unfolding(latcheffect::specs::Effect::effect_by, latch::specs::Table::decide))]
pub fn decide_by(op: LatchOp, full: bool, s: LatchSight) -> LatchEffect
    requires { Small s }
    ensures { result ≡ effect_by op full s }
{
    match op {
        LatchOp::Step => decide_step(s),
        LatchOp::Await => decide_await(full, s),
        LatchOp::Cancel => decide_cancel(s),
        LatchOp::CountDown => decide_count_down(s),
    }
}
