// Refusal 7: is there a place for one more ticket?

ghost use Rattle.std.specs.Prelude.{◌≡◌, ◌≤◌};
ghost use Rattle.hub.specs.Calls.{is_full};
ghost use Rattle.transition.specs.Room.{full_for};

use counts::count_drawing;
use hub::moves::Op;
use hub::record::{Hub, PartySlot};

// By a count of the parties that may yet draw a ticket.
fn is_full(oldest: u32, issued: u32, slots: [PartySlot; 32]) -> bool
    requires { (oldest ≤ 1000000) × (issued ≤ 1000000) }
    ensures { result ≡ is_full oldest issued slots }
{
    let drawing = count_drawing(slots);
    oldest + Hub::PLACES <= issued + drawing
}

// Asked for an ask alone. With room for more than all parties nobody need be counted, and the slots
// are not handed on.
pub fn full_for(op: Op, oldest: u32, issued: u32, slots: [PartySlot; 32]) -> bool
    requires { (oldest ≤ 1000000) × (issued ≤ 1000000) }
    ensures { result ≡ full_for op (is_full oldest issued slots) }
{
    let Op::Acquire = op else {
        return false;
    };
    let parties = Hub::PARTIES as u32;
    if issued + parties < oldest + Hub::PLACES {
        return false;
    }
    is_full(oldest, issued, slots)
}
