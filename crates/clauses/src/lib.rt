// The clauses of a record that fits, each over the few values that it asks.

#![tactic(auto)]

ghost use Rattle.std.specs.Prelude.{◌≡◌, ◌+◌, true, false, ◌&&◌, ◌≤◌, ◌<◌};
ghost use Rattle.std.specs.List.{list_all};
ghost use Rattle.hub.specs.Basics.{all_from, implies};
ghost use Rattle.hub.specs.Fits.{counter_fits, figures_fit, in_window, ticket_fits, place_listed};
ghost use Rattle.hub.specs.Fits.{kinds_fit, stands_at};
ghost use Rattle.hub.specs.Phases.{by_waiter, is_free, of_radios};
ghost use Rattle.hub.specs.Ring.{read_place};
ghost use Rattle.clauses.specs.Window.{seat_fits, ticket_at, tickets_fit, waiter_fits};

use hub::opening::Opening;
use hub::record::{Figures, Hub, Phase, Place, PlaceSlot};
use openhub::{kinds_fit, up_to_32};
use phases::of_radios;
use phases::slot::Slot;

// −32 to 32.
#[tactic(auto, unfolding(hub::specs::Fits::counter_fits))]
fn counter_fits(figures: Figures) -> bool
    ensures { result ≡ counter_fits figures.counter }
{
    (-32..=32).contains(&figures.counter)
}

// The tickets that were drawn and resumed, and the oldest that has a place, of whichever record.
#[tactic(auto, unfolding(hub::specs::Basics::all_of))]
pub fn tickets_fit(figures: Figures, oldest: u32) -> bool
    ensures { result ≡ tickets_fit figures oldest }
{
    let window = oldest..=oldest.saturating_add(Hub::PLACES);
    figures.begun <= Hub::MAX_BEGUN
        && figures.issued <= Hub::MAX_BEGUN
        && figures.resumed <= Hub::MAX_BEGUN
        && window.contains(&figures.issued)
        && window.contains(&figures.resumed)
}

// K and n, the figures and the oldest ticket that has a place, clause by clause.
#[tactic(auto, unfolding(hub::specs::Fits::figures_fit, hub::specs::Basics::all_of))]
fn figures_fit(opening: Opening, figures: Figures, oldest: u32) -> bool
    ensures { result ≡ figures_fit opening figures oldest }
{
    up_to_32(opening.permits)
        && up_to_32(opening.parties)
        && counter_fits(figures)
        && tickets_fit(figures, oldest)
}

// Has t a place, and is it below end?
#[tactic(auto, unfolding(hub::specs::Fits::in_window))]
pub fn in_window(oldest: u32, end: u32, t: u32) -> bool
    requires { oldest ≤ 1000000 }
    ensures { result ≡ in_window oldest end t }
{
    (oldest..oldest + Hub::PLACES).contains(&t) && t < end
}

// Is the ticket of this phase one that fits? Drawing a ticket needs room.
#[tactic(auto, unfolding(hub::specs::Fits::ticket_fits, hub::specs::Basics::all_of, hub::specs::Phases::is_one_of))]
fn ticket_fits(phase: Phase, figures: Figures, oldest: u32) -> bool
    requires { oldest ≤ 1000000 }
    ensures { result ≡ ticket_fits figures oldest phase }
{
    match phase {
        Phase::Waiting(t)
        | Phase::Ticketed(t)
        | Phase::Aborting(t)
        | Phase::Cancelling(t)
        | Phase::Refusing(t)
        | Phase::TicketedMarked(t) => in_window(oldest, figures.issued, t),
        Phase::ResumingAt(t) => in_window(oldest, figures.resumed, t),
        Phase::Suspending | Phase::SuspendingMarked => figures.issued < oldest + Hub::PLACES,
        Phase::Resuming => figures.resumed < oldest + Hub::PLACES,
        _ => true,
    }
}

// Does the step table list the place that a party of this phase is about to act on?
#[tactic(auto, unfolding(hub::specs::Fits::place_listed, hub::specs::Basics::all_of, hub::specs::Phases::is_one_of, hub::specs::Phases::is_place_of))]
fn listed(phase: Phase, place: Place) -> bool
    ensures { result ≡ place_listed phase place }
{
    match phase {
        Phase::Ticketed(_) | Phase::TicketedMarked(_) => {
            matches!(place, Place::Empty | Place::Permit)
        }
        Phase::Cancelling(_) | Phase::Refusing(_) => {
            matches!(place, Place::Waiting(_) | Place::Permit)
        }
        Phase::ResumingAt(_) => !matches!(place, Place::Permit | Place::Done),
        _ => true,
    }
}

// Some phases are of a hub with radios alone.
fn phase_fits(phase: Phase, named: bool) -> bool
    ensures { result ≡ implies (of_radios phase) named }
{
    !of_radios(phase) || named
}

// The clauses of one of the n parties, over its phase and what lies at the place of its ticket.
pub fn party_fits(phase: Phase, place: Place, figures: Figures, oldest: u32, named: bool) -> bool
    requires { oldest ≤ 1000000 }
    ensures { result ≡ ticket_fits figures oldest phase && place_listed phase place
        && implies (of_radios phase) named }
{
    ticket_fits(phase, figures, oldest) && listed(phase, place) && phase_fits(phase, named)
}

// Is the phase one of a party that stands at ticket t?
#[tactic(auto, unfolding(hub::specs::Phases::is_one_of))]
pub fn stands_at(phase: Phase, t: u32) -> bool
    ensures { result ≡ stands_at phase t }
{
    match phase {
        Phase::Waiting(u) | Phase::Aborting(u) | Phase::Cancelling(u) | Phase::Refusing(u) => {
            u == t
        }
        _ => false,
    }
}

// The ticket whose place is at index i.
pub fn ticket_at(oldest: u32, i: usize) -> u32
    requires { (oldest ≤ 1000000) × (i < 256) }
    ensures { result ≡ ticket_at oldest i }
{
    oldest + (i as u32 + Hub::PLACES - oldest % Hub::PLACES) % Hub::PLACES
}

// The clause of the place of ticket t: whoever waits there stands there.
fn waiter_fits<S: Slot>(seat: PlaceSlot, slots: &[S], t: u32) -> bool
    ensures { result ≡ waiter_fits S.phase_of S.nobody slots.now t seat.place }
{
    match seat.place {
        Place::Waiting(q) => {
            let waiter = slots.get(q as usize).copied().unwrap_or(S::free());
            stands_at(waiter.phase(), t)
        }
        _ => true,
    }
}

fn nobody_waits(seats: &[PlaceSlot]) -> bool
    ensures { result ≡ list_all (λ s. by_waiter true (λ q. false) s.place) seats.now }
{
    seats
        .iter()
        .all(|seat| !matches!(seat.place, Place::Waiting(_)))
}

// The clauses of eight places in a row. A row where nobody waits is passed over by eight tests, and the tickets of its indices
// are only computed where somebody waits in it.
fn row_fits<S: Slot>(places: &[PlaceSlot; 256], slots: &[S], oldest: u32, first: usize) -> bool
    requires { (oldest ≤ 1000000) × (first + 8 ≤ 256) }
    ensures { result ≡ all_from (seat_fits S.phase_of S.nobody slots.now places.now oldest) first 8 }
{
    if nobody_waits(&places[first..first + 8]) {
        return true;
    }
    for i in first..first + 8 {
        if !waiter_fits(places[i], slots, ticket_at(oldest, i)) {
            return false;
        }
    }
    true
}

// The clauses of all places, whatever record has these slots.
pub fn waiters_fit<S: Slot>(places: &[PlaceSlot; 256], slots: &[S], oldest: u32) -> bool
    requires { oldest ≤ 1000000 }
    ensures { result ≡ all_from (λ t. waiter_fits S.phase_of S.nobody slots.now t (read_place places.now t)) oldest 256 }
{
    for row in 0..32 {
        if !row_fits(places, slots, oldest, 8 * row) {
            return false;
        }
    }
    true
}

// Are these parties free, as those from n up are?
#[tactic(auto, unfolding(hub::specs::Phases::is_one_of))]
pub fn all_free<S: Slot>(slots: &[S]) -> bool
    ensures { result ≡ list_all (λ s. is_free (S.phase_of s)) slots.now }
{
    slots.iter().all(|slot| matches!(slot.phase(), Phase::Free))
}

// What is asked of the record apart from its parties, places and radios.
pub fn figures_and_kinds_fit(opening: Opening, figures: Figures, oldest: u32) -> bool
    ensures { result ≡ figures_fit opening figures oldest && kinds_fit opening }
{
    figures_fit(opening, figures, oldest) && kinds_fit(opening)
}
