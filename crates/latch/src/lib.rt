// The count-down latch of one house: the desk waits until N doors have answered. A queue of waiting places as the
// hub's, with counters of its own. The papers are documents 01 and 02 (M-150); specs/ has their definitions.

#![tactic(auto)]

pub mod record; // the record of a latch
pub mod moves; // a call, and what it looks at
pub mod opening; // a fresh record

pub use moves::{LatchCall, LatchOp};
pub use opening::LatchRefusal;
pub use record::{Latch, LatchFigures, LatchOutcome, LatchSlot};
