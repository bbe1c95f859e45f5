// What is asked of a phase, and of a place.

#![tactic(auto)]

pub mod slot; // what a record keeps of a party

ghost use Rattle.std.specs.Prelude.{◌≡◌, unwrap_or};
ghost use Rattle.hub.specs.Phases.{at_rest, by_ticket, has_radio, of_radios, place_rank, ticket_of};

use hub::record::{Phase, Place};

// Free, holding or waiting.
#[tactic(auto, unfolding(hub::specs::Phases::is_one_of))]
pub fn at_rest(phase: Phase) -> bool
    ensures { result ≡ at_rest phase }
{
    matches!(phase, Phase::Free | Phase::Holding | Phase::Waiting(_))
}

// The ticket of a phase that has one.
pub fn ticket(phase: Phase) -> Option<u32>
    ensures value { result ≡ by_ticket None (λ t. Some t) phase }
    ensures or_0 { unwrap_or result 0 ≡ ticket_of phase }
{
    match phase {
        Phase::Waiting(t)
        | Phase::Ticketed(t)
        | Phase::Aborting(t)
        | Phase::Cancelling(t)
        | Phase::Refusing(t)
        | Phase::ResumingAt(t)
        | Phase::TicketedMarked(t) => Some(t),
        _ => None,
    }
}

// Has a party of this phase a radio, on a hub with radios?
#[tactic(auto, unfolding(hub::specs::Phases::is_one_of))]
pub fn has_radio(phase: Phase) -> bool
    ensures { result ≡ has_radio phase }
{
    matches!(
        phase,
        Phase::Holding | Phase::Releasing | Phase::Storing | Phase::Resuming | Phase::ResumingAt(_)
    )
}

// Is it a phase of a hub with radios alone?
#[tactic(auto, unfolding(hub::specs::Phases::is_one_of))]
pub fn of_radios(phase: Phase) -> bool
    ensures { result ≡ of_radios phase }
{
    matches!(phase, Phase::Fetching | Phase::Storing)
}

// The index of a state in the list of states: a place's byte (crates/cells), as `place_rank` of the definitions has it.
pub fn place_rank(place: Place) -> u8
    ensures { result ≡ place_rank place }
{
    match place {
        Place::Empty => 0,
        Place::Waiting(_) => 1,
        Place::Permit => 2,
        Place::Cancelled => 3,
        Place::Refused => 4,
        Place::Done => 5,
    }
}
