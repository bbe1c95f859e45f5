// The tests of the tidying's loops.

ghost use Rattle.std.specs.Prelude.{◌≡◌, ◌&&◌, ◌||◌, ltb};
ghost use Rattle.hub.specs.Phases.{is_cancelled, is_done};

use hub::record::{Place, PlaceSlot};

// Is ticket `resumed`, whose place this is, within the 256 that end before `end`, and cancelled?
#[tactic(auto, unfolding(hub::specs::Phases::is_place_of))]
pub fn can_skip(seat: PlaceSlot, resumed: u32, end: u32) -> bool
    ensures { result ≡ (ltb resumed end && is_cancelled seat.place) }
{
    resumed < end && matches!(seat.place, Place::Cancelled)
}

#[tactic(auto, unfolding(hub::specs::Phases::is_place_of))]
pub fn can_retire(seat: PlaceSlot) -> bool
    ensures { result ≡ is_done seat.place }
{
    matches!(seat.place, Place::Done)
}

// Is there anything to tidy, by the places of the next ticket to resume and of the oldest?
#[tactic(auto, unfolding(hub::specs::Phases::is_place_of))]
pub fn is_untidy(next: PlaceSlot, first: PlaceSlot) -> bool
    ensures { result ≡ (is_cancelled next.place || is_done first.place) }
{
    matches!(next.place, Place::Cancelled) || can_retire(first)
}
