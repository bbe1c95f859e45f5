// A call, and the few values that it is decided from.

use crate::record::{LatchFigures, LatchSlot};
use hub::record::PlaceSlot;

// The calls: await (10), step (11), give up (12), count down (13).
#[derive(Clone, Copy)]
pub enum LatchOp {
    Await,
    Step,
    Cancel,
    CountDown,
}

#[derive(Clone, Copy)]
pub struct LatchCall {
    pub op: LatchOp,
    pub party: u8,
}

// What a call of one party looks at.
#[derive(Clone, Copy)]
pub struct LatchSight {
    pub party: u8,
    pub kind: u8,
    pub slot: LatchSlot,
    pub seat: PlaceSlot, // the place of the party's ticket; an empty one if it has none
    pub waiter: LatchSlot, // of the party that waits at that place; a free one if none does
    pub figures: LatchFigures,
}
