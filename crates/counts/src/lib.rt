// What a record shows, for boards and auditors: parties by phase, places by state, and the figures made of them.

#![tactic(auto)]

pub mod calm; // how many steps until all are at rest
mod counted; // who is counted

ghost use Rattle.std.specs.Prelude.{◌≡◌, ◌≤◌, ◌<◌, ◌^◌, Bool, length};
ghost use Rattle.std.specs.Fn.{FnReturnsAt};
ghost use Rattle.hub.specs.Basics.{count};
ghost use Rattle.hub.specs.Counts.{counts_of};
ghost use Rattle.hub.specs.Ledger.{at_counter};
ghost use Rattle.hub.specs.Phases.{draws_ticket};
ghost use Rattle.hub.specs.Record.{phases_of};

use counted::{draws_ticket, holds, is_permit, is_refused, is_waiting, refuses, resumes};
use hub::record::{Counts, Hub, PartySlot};

// How many parties, or places, pass a test. Added up, so that many are asked at a time: by filter and count they are asked one
// by one, and `count_drawing` takes 444 instructions in place of 66.
fn count<T, F: Fn(&T) -> bool>(items: &[T], passes: F) -> u32
    requires few { length items.now < 2 ^ 32 }
    requires callable { (x : _) → F.pre passes x }
    ensures value { (test : T → Bool) → ((x : T) (r : Bool) → FnReturnsAt F.Fn passes x r → r ≡ test x) → result ≡ count test items.now }
    ensures few { result ≤ length items.now }
{
    let mut n = 0;
    for x in items {
        n += u32::from(passes(x));
    }
    n
}

// The parties that may yet draw a ticket. Seldom asked for, so it stays out of the loop over requests: a line of schedule takes 153,
// 147, 134 instructions (mixed, waits, full), without the hint 156, 150, 138.
#[inline(never)]
pub fn count_drawing(slots: [PartySlot; 32]) -> u32
    ensures { (result ≡ count draws_ticket (phases_of slots)) × (result ≤ 32) }
{
    count(&slots, |slot| draws_ticket(slot.phase))
}

// What the counter has above 0.
fn at_counter(counter: i32) -> u32
    ensures { result ≡ at_counter counter }
{
    if 0 < counter { counter as u32 } else { 0 }
}

pub fn counts(hub: Hub) -> Counts
    ensures value { result ≡ counts_of hub }
    ensures few { result.held ≤ 32 }
{
    let coming = count(&hub.slots, |slot| resumes(slot.phase))
        + count(&hub.places, |seat| is_permit(seat.place));
    let declined = count(&hub.slots, |slot| refuses(slot.phase))
        + count(&hub.places, |seat| is_refused(seat.place));
    Counts {
        held: count(&hub.slots, |slot| holds(slot.phase)),
        available: at_counter(hub.control.figures.counter),
        coming,
        declined,
        onway: coming.saturating_sub(declined),
        waiting: count(&hub.slots, |slot| is_waiting(slot.phase)),
    }
}
