// The step table, a row a function. A latch's rows (crates/latchtable) are a table of their own: they store other figures
// and slots, so that only the match on places is common.

ghost use Rattle.std.specs.Prelude.{◌≡◌, ◌≤◌, ◌+◌};
ghost use Rattle.hub.specs.declared.answers.Answer.{Answer};
ghost use Rattle.hub.specs.Moves.{Act};
ghost use Rattle.hub.specs.Phases.{is_waiting};
ghost use Rattle.hub.specs.Table;
ghost use Rattle.hub.specs.Table.{above_zero, change, with_issued, resume_waiter, step_acquiring, step_in, step_ticketed};
ghost use Rattle.hub.specs.Table.{with_permit, without_permit};
ghost use Rattle.effects.specs.Effect.{effect_of};
ghost use Rattle.effects.specs.Small.{Small, CounterFits};

use effects::changes::{acted, given, placed, refused, taken, told, turned, woke};
use effects::counter::{above_zero, below_zero};
use effects::effect::Effect;
use effects::figures::{with_issued, with_resumed};
use hub::answers::{Answer, Refusal};
use hub::moves::Sight;
use hub::record::{Phase, Place};

// With a permit of its own; having given one back.
fn with_permit(named: bool) -> Phase
    ensures { result ≡ with_permit named }
{
    if named {
        Phase::Fetching
    } else {
        Phase::Holding
    }
}

fn without_permit(named: bool) -> Phase
    ensures { result ≡ without_permit named }
{
    if named { Phase::Storing } else { Phase::Free }
}

// `next`: unnumbered, with or without a mark.
#[tactic(auto, unfolding(hub::specs::Table::step_acquiring))]
fn step_acquiring(next: Phase, s: Sight) -> Effect
    requires { CounterFits s.figures.counter }
    ensures { result ≡ effect_of (step_acquiring next (above_zero s.figures.counter) s) s }
{
    if above_zero(s.figures.counter) {
        return taken(with_permit(s.named), Answer::Acquired, s);
    }
    taken(next, Answer::MustWait, s)
}

// `next`: numbered by the next ticket, with or without a mark.
fn step_suspending(next: Phase, s: Sight) -> Effect
    requires { s.figures.issued ≤ 1000000 }
    ensures { result ≡ effect_of (Act (change next (with_issued (s.figures.issued + 1) s.figures)
        (Answer.DrewTicket s.figures.issued) s)) s }
{
    let t = s.figures.issued;
    let figures = with_issued(t + 1, s.figures);
    acted(next, figures, Answer::DrewTicket(t), s)
}

// `next`: waiting, or giving up if there is a mark.
#[tactic(auto, unfolding(hub::specs::Table::step_ticketed))]
fn step_ticketed(next: Phase, t: u32, s: Sight) -> Effect
    ensures { result ≡ effect_of (step_ticketed next t s.seat.place s) s }
{
    match s.seat.place {
        Place::Empty => placed(Place::Waiting(s.party), next, Answer::Parked(t), s),
        Place::Permit => placed(Place::Done, Phase::Holding, Answer::TookPermit(t), s),
        _ => refused(Refusal::Unfit, s),
    }
}

#[tactic(auto, unfolding(hub::specs::Table::row_in, hub::specs::Table::step_releasing))]
fn step_releasing(s: Sight) -> Effect
    requires { CounterFits s.figures.counter }
    ensures { result ≡ effect_of (step_in Phase.Releasing s) s }
{
    if below_zero(s.figures.counter) {
        return given(Phase::Resuming, Answer::MustResume, s);
    }
    given(without_permit(s.named), Answer::Returned, s)
}

#[tactic(auto, unfolding(hub::specs::Table::row_in, hub::specs::Table::step_resuming))]
fn step_resuming(s: Sight) -> Effect
    requires { s.figures.resumed ≤ 1000000 }
    ensures { result ≡ effect_of (step_in Phase.Resuming s) s }
{
    let t = s.figures.resumed;
    let figures = with_resumed(t + 1, s.figures);
    acted(Phase::ResumingAt(t), figures, Answer::StartedResume(t), s)
}

// The waiter is woken, or has given up and is left the permit.
#[tactic(auto, unfolding(hub::specs::Table::resume_waiter, hub::specs::Phases::is_one_of))]
fn resume_waiter(q: u32, t: u32, s: Sight) -> Effect
    ensures { result ≡ effect_of (resume_waiter (is_waiting s.waiter.phase) q t s) s }
{
    let Phase::Waiting(_) = s.waiter.phase else {
        return placed(Place::Permit, Phase::Free, Answer::Delegated(t), s);
    };
    woke(q, t, s)
}

#[tactic(auto, unfolding(hub::specs::Table::row_in, hub::specs::Table::step_resuming_at))]
fn step_resuming_at(t: u32, s: Sight) -> Effect
    ensures { result ≡ effect_of (step_in (Phase.ResumingAt t) s) s }
{
    match s.seat.place {
        Place::Empty => placed(Place::Permit, Phase::Free, Answer::LeftPermit(t), s),
        Place::Waiting(q) => resume_waiter(q as u32, t, s),
        Place::Cancelled => placed(Place::Done, Phase::Resuming, Answer::Skipped(t), s),
        Place::Refused => placed(Place::Done, Phase::Free, Answer::ResumeRefused(t), s),
        _ => refused(Refusal::Unfit, s),
    }
}

#[tactic(auto, unfolding(hub::specs::Table::row_in, hub::specs::Table::step_aborting))]
fn step_aborting(t: u32, s: Sight) -> Effect
    requires { CounterFits s.figures.counter }
    ensures { result ≡ effect_of (step_in (Phase.Aborting t) s) s }
{
    if below_zero(s.figures.counter) {
        return given(Phase::Cancelling(t), Answer::MustCancel, s);
    }
    given(Phase::Refusing(t), Answer::MustRefuse, s)
}

// This row and the next differ in two places and three answers: one function for both would take five parameters.
#[tactic(auto, unfolding(hub::specs::Table::row_in, hub::specs::Table::step_cancelling))]
fn step_cancelling(t: u32, s: Sight) -> Effect
    ensures { result ≡ effect_of (step_in (Phase.Cancelling t) s) s }
{
    match s.seat.place {
        Place::Waiting(_) => placed(Place::Cancelled, Phase::Free, Answer::MarkedCancelled(t), s),
        Place::Permit => placed(Place::Done, Phase::Resuming, Answer::PassedOn(t), s),
        _ => refused(Refusal::Unfit, s),
    }
}

#[tactic(auto, unfolding(hub::specs::Table::row_in, hub::specs::Table::step_refusing))]
fn step_refusing(t: u32, s: Sight) -> Effect
    ensures { result ≡ effect_of (step_in (Phase.Refusing t) s) s }
{
    match s.seat.place {
        Place::Waiting(_) => placed(Place::Refused, Phase::Free, Answer::MarkedRefused(t), s),
        Place::Permit => placed(Place::Done, Phase::Free, Answer::DroppedPermit(t), s),
        _ => refused(Refusal::Unfit, s),
    }
}

// A radio is stored, or not yet.
#[tactic(auto, unfolding(hub::specs::Table::row_in, hub::specs::Table::step_fetching))]
fn step_fetching(s: Sight) -> Effect
    ensures { result ≡ effect_of (step_in Phase.Fetching s) s }
{
    if s.stocked {
        return turned(Phase::Holding, Answer::Fetched, s);
    }
    told(Answer::NotYet, s)
}

#[tactic(auto, unfolding(hub::specs::Table::row_in, hub::specs::Table::step_storing))]
fn step_storing(s: Sight) -> Effect
    ensures { result ≡ effect_of (step_in Phase.Storing s) s }
{
    turned(Phase::Free, Answer::Stored, s)
}

// The step table.
#[tactic(auto, unfolding(hub::specs::Table::row_in, hub::specs::Table::step_suspending))]
pub fn decide_step(s: Sight) -> Effect
    requires { Small s }
    ensures { result ≡ effect_of (Table.step s) s }
{
    match s.slot.phase {
        Phase::Free | Phase::Holding | Phase::Waiting(_) => refused(Refusal::AtRest, s),
        Phase::Acquiring => step_acquiring(Phase::Suspending, s),
        Phase::Suspending => step_suspending(Phase::Ticketed(s.figures.issued), s),
        Phase::Ticketed(t) => step_ticketed(Phase::Waiting(t), t, s),
        Phase::Aborting(t) => step_aborting(t, s),
        Phase::Cancelling(t) => step_cancelling(t, s),
        Phase::Refusing(t) => step_refusing(t, s),
        Phase::Releasing => step_releasing(s),
        Phase::Resuming => step_resuming(s),
        Phase::ResumingAt(t) => step_resuming_at(t, s),
        Phase::Fetching => step_fetching(s),
        Phase::Storing => step_storing(s),
        Phase::AcquiringMarked => step_acquiring(Phase::SuspendingMarked, s),
        Phase::SuspendingMarked => step_suspending(Phase::TicketedMarked(s.figures.issued), s),
        Phase::TicketedMarked(t) => step_ticketed(Phase::Aborting(t), t, s),
    }
}
