// The step table, a row a function.

ghost use Rattle.std.specs.Prelude.{◌≡◌, ◌≤◌};
ghost use Rattle.hub.specs.Phases.{is_waiting};
ghost use Rattle.latch.specs.Table.{done, resume_waiter, step_acquiring, step_in, step_suspending, step_ticketed};
ghost use Rattle.latcheffect.specs.Effect.{effect_of};

use hub::answers::{Answer, Refusal};
use hub::record::{Phase, Place};
use latch::moves::LatchSight;
use latch::opening::free_slot;
use latch::record::LatchFigures;
use latcheffect::changes::{acted, placed, refused, turned, woke};
use latcheffect::effect::LatchEffect;
use latcheffect::slots::{in_phase, to_raise, used_one, with_left};

// Asked, or raising; `phase` is its own, and `next` unnumbered, both with or without a mark.
#[tactic(auto, unfolding(latch::specs::Table::step_acquiring))]
pub fn step_acquiring(phase: Phase, next: Phase, s: LatchSight) -> LatchEffect
    requires { s.figures.waiters ≤ 32 }
    ensures { result ≡ effect_of (step_acquiring phase next (done s.figures) s.slot.raising s) s }
{
    if s.figures.count == 0 {
        return turned(free_slot(), Answer::Acquired, s);
    }
    if !s.slot.raising {
        return turned(to_raise(phase), Answer::MustWait, s);
    }
    acted(
        in_phase(next),
        LatchFigures {
            waiters: s.figures.waiters + 1,
            ..s.figures
        },
        Answer::MustWait,
        s,
    )
}

// `next`: numbered, with or without a mark.
#[tactic(auto, unfolding(latch::specs::Table::step_suspending))]
pub fn step_suspending(next: Phase, s: LatchSight) -> LatchEffect
    requires { s.figures.issued ≤ 1000000 }
    ensures { result ≡ effect_of (step_suspending (λ t. next) s) s }
{
    let t = s.figures.issued;
    acted(
        in_phase(next),
        LatchFigures {
            issued: t + 1,
            ..s.figures
        },
        Answer::DrewTicket(t),
        s,
    )
}

// `next`: waiting, or giving up if there is a mark.
#[tactic(auto, unfolding(latch::specs::Table::step_ticketed))]
pub fn step_ticketed(next: Phase, t: u32, s: LatchSight) -> LatchEffect
    ensures { result ≡ effect_of (step_ticketed next t s.seat.place s) s }
{
    match s.seat.place {
        Place::Empty => placed(
            Place::Waiting(s.party),
            in_phase(next),
            Answer::Parked(t),
            s,
        ),
        Place::Permit => placed(Place::Done, free_slot(), Answer::TookPermit(t), s),
        _ => refused(Refusal::Unfit, s),
    }
}

#[tactic(auto, unfolding(latch::specs::Table::step_in, latch::specs::Table::step_releasing, hub::specs::Phases::is_one_of))]
pub fn step_releasing(s: LatchSight) -> LatchEffect
    ensures { result ≡ effect_of (step_in Phase.Releasing s) s }
{
    let figures = s.figures;
    let lowered = LatchFigures {
        count: figures.count.saturating_sub(1),
        ..figures
    };
    // does it bring the count to 0, with waiters?
    if figures.count == 1 && 1 <= figures.waiters {
        return acted(
            with_left(Phase::Resuming, figures.waiters),
            lowered,
            Answer::MustResume,
            s,
        );
    }
    acted(free_slot(), lowered, Answer::Returned, s)
}

#[tactic(auto, unfolding(latch::specs::Table::step_in, latch::specs::Table::step_resuming, hub::specs::Phases::is_one_of))]
pub fn step_resuming(s: LatchSight) -> LatchEffect
    requires { s.figures.resumed ≤ 1000000 }
    ensures { result ≡ effect_of (step_in Phase.Resuming s) s }
{
    let t = s.figures.resumed;
    acted(
        with_left(Phase::ResumingAt(t), s.slot.left),
        LatchFigures {
            resumed: t + 1,
            ..s.figures
        },
        Answer::StartedResume(t),
        s,
    )
}

// The waiter is woken, or has given up and is left the hand-over.
#[tactic(auto, unfolding(latch::specs::Table::resume_waiter, hub::specs::Phases::is_one_of))]
fn resume_waiter(q: u32, t: u32, s: LatchSight) -> LatchEffect
    ensures { result ≡ effect_of (resume_waiter (is_waiting s.waiter.phase) q t s) s }
{
    let Phase::Waiting(_) = s.waiter.phase else {
        return placed(
            Place::Permit,
            used_one(s.slot.left),
            Answer::Delegated(t),
            s,
        );
    };
    woke(q, t, used_one(s.slot.left), s)
}

#[tactic(auto, unfolding(latch::specs::Table::step_in, latch::specs::Table::step_resuming_at, hub::specs::Phases::is_one_of))]
pub fn step_resuming_at(t: u32, s: LatchSight) -> LatchEffect
    ensures { result ≡ effect_of (step_in (Phase.ResumingAt t) s) s }
{
    let left = s.slot.left;
    match s.seat.place {
        Place::Empty => placed(Place::Permit, used_one(left), Answer::LeftPermit(t), s),
        Place::Waiting(q) => resume_waiter(q as u32, t, s),
        Place::Cancelled => {
            placed(
                Place::Done,
                with_left(Phase::Resuming, left),
                Answer::Skipped(t),
                s,
            )
        }
        Place::Refused => placed(Place::Done, used_one(left), Answer::ResumeRefused(t), s),
        _ => refused(Refusal::Unfit, s),
    }
}

// One waiter less; after the mark a hand-over is on its way to it.
#[tactic(auto, unfolding(latch::specs::Table::step_in, latch::specs::Table::step_aborting, hub::specs::Phases::is_one_of))]
pub fn step_aborting(t: u32, s: LatchSight) -> LatchEffect
    ensures { result ≡ effect_of (step_in (Phase.Aborting t) s) s }
{
    let fewer = LatchFigures {
        waiters: s.figures.waiters.saturating_sub(1),
        ..s.figures
    };
    if s.figures.count != 0 {
        return acted(in_phase(Phase::Cancelling(t)), fewer, Answer::MustCancel, s);
    }
    acted(in_phase(Phase::Refusing(t)), fewer, Answer::MustRefuse, s)
}

#[tactic(auto, unfolding(latch::specs::Table::step_in, latch::specs::Table::step_cancelling, hub::specs::Phases::is_one_of))]
pub fn step_cancelling(t: u32, s: LatchSight) -> LatchEffect
    ensures { result ≡ effect_of (step_in (Phase.Cancelling t) s) s }
{
    match s.seat.place {
        Place::Waiting(_) => placed(Place::Cancelled, free_slot(), Answer::MarkedCancelled(t), s),
        Place::Permit => {
            placed(
                Place::Done,
                with_left(Phase::Resuming, 1),
                Answer::PassedOn(t),
                s,
            )
        }
        _ => refused(Refusal::Unfit, s),
    }
}

#[tactic(auto, unfolding(latch::specs::Table::step_in, latch::specs::Table::step_refusing, hub::specs::Phases::is_one_of))]
pub fn step_refusing(t: u32, s: LatchSight) -> LatchEffect
    ensures { result ≡ effect_of (step_in (Phase.Refusing t) s) s }
{
    match s.seat.place {
        Place::Waiting(_) => placed(Place::Refused, free_slot(), Answer::MarkedRefused(t), s),
        Place::Permit => placed(Place::Done, free_slot(), Answer::DroppedPermit(t), s),
        _ => refused(Refusal::Unfit, s),
    }
}
