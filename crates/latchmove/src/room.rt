// Refusal 7: is there a place for one more ticket? The counting and the test are as the hub's (crates counts and
// transition). Tried: both, and the two functions of `sight`, generic in what is kept of a party; the hub's program
// `schedule` then took 158, 152 and 141 instructions a line (mixed, waits, full) in place of 151, 145 and 132.

ghost use Rattle.std.specs.Prelude.{◌≡◌, ◌≤◌};
ghost use Rattle.hub.specs.Basics.{count};
ghost use Rattle.hub.specs.Phases.{draws_ticket};
ghost use Rattle.latch.specs.Calls.{is_full};
ghost use Rattle.latch.specs.Record.{phases_of};
ghost use Rattle.latchmove.specs.Room.{full_for};

use hub::record::{Hub, Phase};
use latch::moves::LatchOp;
use latch::record::LatchSlot;

// Asked, raising or unnumbered, with a mark or without: it may yet draw a ticket.
#[tactic(auto, unfolding(hub::specs::Phases::is_one_of))]
fn draws_ticket(phase: Phase) -> bool
    ensures { result ≡ draws_ticket phase }
{
    matches!(
        phase,
        Phase::Acquiring | Phase::Suspending | Phase::AcquiringMarked | Phase::SuspendingMarked
    )
}

// Added up, as the hub's are, and for the same reason.
pub fn count_drawing(slots: [LatchSlot; 32]) -> u32
    ensures { (result ≡ count draws_ticket (phases_of slots)) × (result ≤ 32) }
{
    let mut n = 0;
    for slot in &slots {
        n += u32::from(draws_ticket(slot.phase));
    }
    n
}

fn is_full(oldest: u32, issued: u32, slots: [LatchSlot; 32]) -> bool
    requires { (oldest ≤ 1000000) × (issued ≤ 1000000) }
    ensures { result ≡ is_full oldest issued slots }
{
    let drawn = count_drawing(slots);
    oldest + Hub::PLACES <= issued + drawn
}

// Asked for an await alone. With room for more than all parties nobody need be counted, and the
// slots are not handed on.
pub fn full_for(op: LatchOp, oldest: u32, issued: u32, slots: [LatchSlot; 32]) -> bool
    requires { (oldest ≤ 1000000) × (issued ≤ 1000000) }
    ensures { result ≡ full_for op (is_full oldest issued slots) }
{
    let LatchOp::Await = op else {
        return false;
    };
    let parties = Hub::PARTIES as u32;
    if issued + parties < oldest + Hub::PLACES {
        return false;
    }
    is_full(oldest, issued, slots)
}
