// The row of each phase.

ghost use Rattle.std.specs.Prelude.{◌≡◌};
ghost use Rattle.latch.specs.Table;
ghost use Rattle.latcheffect.specs.Effect.{effect_of};
ghost use Rattle.latcheffect.specs.Small.{Small};

use hub::answers::Refusal;
use hub::record::Phase;
use latch::moves::LatchSight;
use latcheffect::changes::refused;
use latcheffect::effect::LatchEffect;
use latchtable::rows::{
    step_aborting, step_acquiring, step_cancelling, step_refusing, step_releasing, step_resuming,
    step_resuming_at, step_suspending, step_ticketed,
};

#[tactic(auto, unfolding(latch::specs::Table::step_in, latch::specs::Table::step_suspending, hub::specs::Phases::is_one_of))]
pub(crate) fn decide_step(s: LatchSight) -> LatchEffect
    requires { Small s }
    ensures { result ≡ effect_of (Table.step s) s }
{
    match s.slot.phase {
        Phase::Free | Phase::Waiting(_) => refused(Refusal::AtRest, s),
        Phase::Acquiring => step_acquiring(Phase::Acquiring, Phase::Suspending, s),
        Phase::Suspending => step_suspending(Phase::Ticketed(s.figures.issued), s),
        Phase::Ticketed(t) => step_ticketed(Phase::Waiting(t), t, s),
        Phase::Aborting(t) => step_aborting(t, s),
        Phase::Cancelling(t) => step_cancelling(t, s),
        Phase::Refusing(t) => step_refusing(t, s),
        Phase::Releasing => step_releasing(s),
        Phase::Resuming => step_resuming(s),
        Phase::ResumingAt(t) => step_resuming_at(t, s),
        Phase::AcquiringMarked => {
            step_acquiring(Phase::AcquiringMarked, Phase::SuspendingMarked, s)
        }
        Phase::SuspendingMarked => step_suspending(Phase::TicketedMarked(s.figures.issued), s),
        Phase::TicketedMarked(t) => step_ticketed(Phase::Aborting(t), t, s),
        _ => refused(Refusal::Unfit, s),
    }
}
