// Does a record fit? The check of every clause, for any value of the type.

#![tactic(auto)]

ghost use Rattle.std.specs.Prelude.{◌≡◌, ◌≤◌};
ghost use Rattle.std.specs.List.{list_all};
ghost use Rattle.hub.specs.Fits;
ghost use Rattle.fit.specs.Members.{member_fits};

use clauses::{all_free, figures_and_kinds_fit, in_window, party_fits, waiters_fit};
use hub::record::{Figures, Hub, PartySlot, Phase, PlaceSlot};
use phases::ticket;
use pool::check::radios_fit;

// The clauses of one of the n parties. One that waits acts on no place.
#[tactic(auto, unfolding(hub::specs::Fits::ticket_fits, hub::specs::Fits::place_listed, hub::specs::Basics::all_of, hub::specs::Phases::is_one_of, hub::specs::Ring::read_seat))]
fn member_fits(
    phase: Phase,
    places: &[PlaceSlot; 256],
    figures: Figures,
    oldest: u32,
    named: bool,
) -> bool
    requires { oldest ≤ 1000000 }
    ensures { result ≡ member_fits places.now figures oldest named phase }
{
    match phase {
        Phase::Free => true,
        Phase::Waiting(t) => in_window(oldest, figures.issued, t),
        _ => {
            let seat = places[(ticket(phase).unwrap_or(0) % Hub::PLACES) as usize];
            party_fits(phase, seat.place, figures, oldest, named)
        }
    }
}

fn members_fit(
    slots: &[PartySlot],
    places: &[PlaceSlot; 256],
    figures: Figures,
    oldest: u32,
    named: bool,
) -> bool
    requires { oldest ≤ 1000000 }
    ensures { result ≡ list_all (λ s. member_fits places.now figures oldest named s.phase) slots.now }
{
    slots.iter().all(|slot| member_fits(slot.phase, places, figures, oldest, named))
}

// Does the record fit? Little is done where there is little to test: a free party, one that waits, a
// party from n up, a place where nobody waits.
pub fn fits(hub: Hub) -> bool
    ensures { result ≡ Rattle.hub.specs.Fits.fits hub }
{
    let opening = hub.control.opening;
    let figures = hub.control.figures;
    let oldest = hub.control.oldest;
    if !figures_and_kinds_fit(opening, figures, oldest) {
        return false;
    }
    let n = opening.parties as usize;
    members_fit(&hub.slots[..n], &hub.places, figures, oldest, opening.named)
        && all_free(&hub.slots[n..])
        && waiters_fit(&hub.places, &hub.slots, oldest)
        && (!opening.named || radios_fit(hub))
}
