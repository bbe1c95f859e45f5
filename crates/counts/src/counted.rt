// Who is counted.

ghost use Rattle.std.specs.Prelude.{◌≡◌};
ghost use Rattle.hub.specs.Phases.{draws_ticket, holds, is_permit, is_refused, is_waiting, refuses, resumes};

use hub::record::{Phase, Place};

// Holding, giving back or fetching.
#[tactic(auto, unfolding(hub::specs::Phases::is_one_of))]
pub(crate) fn holds(phase: Phase) -> bool
    ensures { result ≡ holds phase }
{
    matches!(phase, Phase::Holding | Phase::Releasing | Phase::Fetching)
}

// Carrying or handing: it has a permit for a waiter.
#[tactic(auto, unfolding(hub::specs::Phases::is_one_of))]
pub(crate) fn resumes(phase: Phase) -> bool
    ensures { result ≡ resumes phase }
{
    matches!(phase, Phase::Resuming | Phase::ResumingAt(_))
}

#[tactic(auto, unfolding(hub::specs::Phases::is_one_of))]
pub(crate) fn refuses(phase: Phase) -> bool
    ensures { result ≡ refuses phase }
{
    matches!(phase, Phase::Refusing(_))
}

#[tactic(auto, unfolding(hub::specs::Phases::is_one_of))]
pub(crate) fn is_waiting(phase: Phase) -> bool
    ensures { result ≡ is_waiting phase }
{
    matches!(phase, Phase::Waiting(_))
}

// Asked or unnumbered, with a mark or without: it may yet draw a ticket.
#[tactic(auto, unfolding(hub::specs::Phases::is_one_of))]
pub(crate) fn draws_ticket(phase: Phase) -> bool
    ensures { result ≡ draws_ticket phase }
{
    matches!(
        phase,
        Phase::Acquiring | Phase::Suspending | Phase::AcquiringMarked | Phase::SuspendingMarked
    )
}

#[tactic(auto, unfolding(hub::specs::Phases::is_place_of))]
pub(crate) fn is_permit(place: Place) -> bool
    ensures { result ≡ is_permit place }
{
    matches!(place, Place::Permit)
}

#[tactic(auto, unfolding(hub::specs::Phases::is_place_of))]
pub(crate) fn is_refused(place: Place) -> bool
    ensures { result ≡ is_refused place }
{
    matches!(place, Place::Refused)
}
