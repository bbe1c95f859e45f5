// How long until calm: for a poller, who must know when to stop.

ghost use Rattle.std.specs.Prelude.{◌≡◌};
ghost use Rattle.hub.specs.Calm.{steps_to_calm};

use crate::count_drawing;
use hub::record::Hub;

// The bound of any record, in an integer that every record's has room in.
#[tactic(auto, unfolding(hub::specs::Calm::steps_to_calm))]
pub fn steps_to_calm(hub: Hub) -> u64
    ensures { result ≡ steps_to_calm hub }
{
    let drawn = u64::from(hub.control.figures.issued) + u64::from(count_drawing(hub.slots));
    let handed = u64::from(hub.control.figures.resumed);
    5 * u64::from(hub.control.opening.parties) + 2 * drawn.saturating_sub(handed)
}
