// Does the record of a latch fit? The check of every clause, for any value of the type. Tickets and
// places are the hub's to check.

#![tactic(auto)]

ghost use Rattle.std.specs.Prelude.{◌≡◌, ◌≤◌};
ghost use Rattle.std.specs.List.{list_all};
ghost use Rattle.latch.specs.Fits.{figures_fit, slot_fits};
ghost use Rattle.latchfit.specs.Tickets.{member_fits, tickets_of};

use clauses::{all_free, party_fits, tickets_fit, waiters_fit};
use hub::record::{Figures, Hub, Phase, PlaceSlot};
use latch::record::{Latch, LatchFigures, LatchSlot};
use openhub::up_to_32;
use phases::ticket;

// The figures that a ticket is checked by, as the hub has them.
fn tickets_of(figures: LatchFigures) -> Figures
    ensures { result ≡ tickets_of figures }
{
    Figures {
        counter: 0,
        issued: figures.issued,
        resumed: figures.resumed,
        begun: figures.begun,
    }
}

// n, the figures and the oldest ticket that has a place, clause by clause.
#[tactic(auto, unfolding(latch::specs::Fits::figures_fit, hub::specs::Basics::all_of))]
fn figures_fit(parties: u8, figures: LatchFigures, oldest: u32) -> bool
    ensures { result ≡ figures_fit parties figures oldest }
{
    up_to_32(parties)
        && figures.count <= 200
        && figures.waiters <= 32
        && tickets_fit(tickets_of(figures), oldest)
}

// No party of a latch holds, or is in a phase of radios; whoever carries or hands has 1 to 32 hand-overs left.
#[tactic(auto, unfolding(latch::specs::Fits::slot_fits, hub::specs::Phases::is_one_of))]
fn slot_fits(slot: LatchSlot) -> bool
    ensures { result ≡ slot_fits slot }
{
    match slot.phase {
        Phase::Holding | Phase::Fetching | Phase::Storing => false,
        Phase::Resuming | Phase::ResumingAt(_) => (1..=32).contains(&slot.left),
        _ => true,
    }
}

// The clauses of one of the n parties. A free one is let pass by its arm, as at the hub.
#[tactic(auto, unfolding(latch::specs::Fits::slot_fits, latch::specs::Fits::ticket_fits, hub::specs::Fits::place_listed, hub::specs::Basics::all_of, hub::specs::Phases::is_one_of, hub::specs::Ring::read_seat))]
fn member_fits(
    slot: LatchSlot,
    places: &[PlaceSlot; 256],
    figures: LatchFigures,
    oldest: u32,
) -> bool
    requires { oldest ≤ 1000000 }
    ensures { result ≡ member_fits places.now figures oldest slot }
{
    match slot.phase {
        Phase::Free => true,
        phase => {
            let seat = places[(ticket(phase).unwrap_or(0) % Hub::PLACES) as usize];
            slot_fits(slot) && party_fits(phase, seat.place, tickets_of(figures), oldest, true)
        }
    }
}

// The hub's goes over other slots with other figures, and asks for radios: what both ask of a party is `party_fits`.
fn members_fit(
    slots: &[LatchSlot],
    places: &[PlaceSlot; 256],
    figures: LatchFigures,
    oldest: u32,
) -> bool
    requires { oldest ≤ 1000000 }
    ensures { result ≡ list_all (member_fits places.now figures oldest) slots.now }
{
    slots
        .iter()
        .all(|slot| member_fits(*slot, places, figures, oldest))
}

// Does the record fit? It goes as the hub's check.
pub fn fits(latch: Latch) -> bool
    ensures { result ≡ Rattle.latch.specs.Fits.fits latch }
{
    let figures = latch.figures;
    let oldest = latch.oldest;
    if !figures_fit(latch.parties, figures, oldest) {
        return false;
    }
    let n = latch.parties as usize;
    members_fit(&latch.slots[..n], &latch.places, figures, oldest)
        && all_free(&latch.slots[n..])
        && waiters_fit(&latch.places, &latch.slots, oldest)
}
