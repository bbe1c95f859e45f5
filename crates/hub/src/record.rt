// The record of a hub. A link of the paper is a permit, the number of a wait its ticket.

use crate::answers::Answer;
use crate::opening::Opening;

// A party's phase: the first three are at rest, the others busy. Each t is a ticket.
#[derive(Clone, Copy, PartialEq, Eq, Debug)]
pub enum Phase {
    Free,
    Holding,
    Waiting(u32),
    Acquiring, // asked
    Suspending, // unnumbered: to draw a ticket
    Ticketed(u32), // numbered t
    Aborting(u32), // giving up t: the counter is not told yet
    Cancelling(u32), // the ticket is to be skipped
    Refusing(u32), // a permit is on its way to the ticket, and is not wanted
    Releasing, // giving back
    Resuming, // carrying: to draw the next ticket to resume
    ResumingAt(u32), // handing t
    Fetching, // of a hub with radios: it has a permit, and takes a radio for it
    Storing, // putting back: it has given its permit back, and not yet its radio
    AcquiringMarked, // asked, and given up early: it will give up as soon as it would wait
    SuspendingMarked, // unnumbered, likewise
    TicketedMarked(u32), // numbered t, likewise
}

// What lies at the place of a ticket: a cell of the waiting queue.
#[derive(Clone, Copy, PartialEq, Eq, Debug)]
pub enum Place {
    Empty,
    Waiting(u8), // the party that waits there
    Permit, // link
    Cancelled,
    Refused,
    Done,
}

// What the record keeps of a place, and of a party: structs, as `with_place`, `with_phase` and the theorems have them.
#[derive(Clone, Copy, PartialEq, Eq, Debug)]
pub struct PlaceSlot {
    pub place: Place,
}

#[derive(Clone, Copy, PartialEq, Eq, Debug)]
pub struct PartySlot {
    pub phase: Phase,
}

// The numbers that calls move.
#[derive(Clone, Copy, PartialEq, Eq, Debug)]
pub struct Figures {
    pub counter: i32, // permits available; below zero, waits that no permit comes for
    pub issued: u32, // numbered: the next ticket for a wait
    pub resumed: u32, // handed: the next ticket to resume
    pub begun: u32, // acquires accepted since opening
}

// The radios of a hub that has some. They have arrays of their own, apart from slots and places: on a
// hub without radios no call alters them, and what it reads there counts for nothing.
#[derive(Clone, Copy, PartialEq, Eq, Debug)]
pub struct Pool {
    pub hands: [u8; 32], // with each party; it counts where the party's phase has one
    pub laid: [u8; 256], // at each place; it counts where a permit lies
    pub store: [u8; 32], // a ring
    pub first: u32, // where in it the first stored radio is, modulo 32
    pub stored: u32, // how many are stored
}

// The control block of a hub: all but its places and its slots.
#[derive(Clone, Copy, PartialEq, Eq, Debug)]
pub struct Control {
    pub opening: Opening, // what it was opened with
    pub figures: Figures,
    pub oldest: u32, // the first ticket that has a place
    pub pool: Pool,
}

// The control block comes last: in front of the arrays it makes a call in place dearer by a sixth (docs/DECISIONS.md, 20).
#[derive(Clone, Copy, PartialEq, Eq, Debug)]
pub struct Hub {
    pub places: [PlaceSlot; 256], // a ring: that of ticket t is at t modulo 256
    pub slots: [PartySlot; 32],
    pub control: Control,
}

impl Hub {
    pub const PLACES: u32 = 256;

    pub const MAX_BEGUN: u32 = 1000000;

    pub const PARTIES: u8 = 32;
}

// What a call answers, and the record that it leaves. What an opening answers is a Result (`open_hub`); the definition `opening`
// gives an outcome for it too.
#[derive(Clone, Copy, PartialEq, Eq, Debug)]
pub struct Outcome {
    pub answer: Answer,
    pub hub: Hub,
}

// What a record shows, for boards and auditors.
#[derive(Clone, Copy, PartialEq, Eq, Debug)]
pub struct Counts {
    pub held: u32, // parties holding, giving back or fetching
    pub available: u32, // at the counter
    pub coming: u32, // parties carrying or handing, and link places
    pub declined: u32, // parties refusing, and refused places
    pub onway: u32, // on the way: coming less declined, 0 if that were below
    pub waiting: u32, // parties in phase waiting
}
