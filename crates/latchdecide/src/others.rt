// The other calls: await, give up and count down.

ghost use Rattle.std.specs.Prelude.{◌≡◌, false};
ghost use Rattle.latch.specs.declared.moves.LatchOp.{LatchOp};
ghost use Rattle.latch.specs.Table.{decide};
ghost use Rattle.latcheffect.specs.Effect.{effect_of};

use hub::answers::{Answer, Refusal};
use hub::record::{Hub, Phase};
use latch::moves::LatchSight;
use latch::record::{LatchFigures, LatchSlot};
use latcheffect::changes::{acted, refused, turned};
use latcheffect::effect::LatchEffect;
use latcheffect::slots::in_phase;

// Is there no place for one more ticket? Asked only of a party that is free.
pub(crate) fn decide_await(full: bool, s: LatchSight) -> LatchEffect
    ensures { result ≡ effect_of (decide LatchOp.Await full s) s }
{
    let Phase::Free = s.slot.phase else {
        return refused(Refusal::NotFree, s);
    };
    let begun = s.figures.begun;
    if Hub::MAX_BEGUN <= begun {
        return refused(Refusal::Exhausted, s);
    }
    if full {
        return refused(Refusal::Full, s);
    }
    let counted = LatchFigures {
        begun: begun + 1,
        ..s.figures
    };
    acted(in_phase(Phase::Acquiring), counted, Answer::Accepted, s)
}

// Before it waits a give-up is remembered, once. 9, before kind 3 is looked at, 10. What else is kept of the party stays.
#[tactic(auto, unfolding(latch::specs::Table::decide, latch::specs::Table::cancel, hub::specs::Table::given_up, hub::specs::Phases::is_one_of))]
pub(crate) fn decide_cancel(s: LatchSight) -> LatchEffect
    ensures { result ≡ effect_of (decide LatchOp.Cancel false s) s }
{
    let phase = match s.slot.phase {
        Phase::Waiting(t) => Phase::Aborting(t),
        Phase::Acquiring => Phase::AcquiringMarked,
        Phase::Suspending => Phase::SuspendingMarked,
        Phase::Ticketed(t) => Phase::TicketedMarked(t),
        _ => return refused(Refusal::NotWaiting, s),
    };
    if s.kind == 3 {
        return refused(Refusal::NotCancellable, s);
    }
    turned(LatchSlot { phase, ..s.slot }, Answer::Accepted, s)
}

#[tactic(auto, unfolding(latch::specs::Table::decide, latch::specs::Table::count_down, hub::specs::Phases::is_one_of))]
pub(crate) fn decide_count_down(s: LatchSight) -> LatchEffect
    ensures { result ≡ effect_of (decide LatchOp.CountDown false s) s }
{
    let Phase::Free = s.slot.phase else {
        return refused(Refusal::NotFree, s);
    };
    turned(in_phase(Phase::Releasing), Answer::Accepted, s)
}
