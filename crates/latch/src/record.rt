// The record of a latch. A hand-over of the paper resumes one waiter; the number of a wait is its ticket.

use hub::answers::Answer;
use hub::record::{Phase, PlaceSlot};

// What the record keeps of a party: its phase as at the hub, and what only a latch has. Raising is asked, once it
// is known that there is something to wait for.
#[derive(Clone, Copy)]
pub struct LatchSlot {
    pub phase: Phase,
    pub raising: bool, // of an asked party: it is to add a waiter
    pub left: u32, // of a party that carries or hands: hand-overs left
}

// The numbers that calls move. The done mark is the count at 0.
#[derive(Clone, Copy)]
pub struct LatchFigures {
    pub count: u32, // doors that are still to answer
    pub waiters: u32, // waits that were begun and not given up
    pub issued: u32, // numbered: the next ticket for a wait
    pub resumed: u32, // handed: the next ticket to resume
    pub begun: u32, // awaits accepted since opening
}

#[derive(Clone, Copy)]
pub struct Latch {
    pub parties: u8, // n
    pub figures: LatchFigures,
    pub oldest: u32, // the first ticket that has a place
    pub places: [PlaceSlot; 256], // a ring: that of ticket t is at t modulo 256
    pub slots: [LatchSlot; 32],
}

// What a call answers, and the record that it leaves.
#[derive(Clone, Copy)]
pub struct LatchOutcome {
    pub answer: Answer,
    pub latch: Latch,
}
