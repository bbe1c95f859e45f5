// A decision laid out flat, as the hub's: it is stored without asking of which kind it is.

use hub::answers::Answer;
use hub::record::PlaceSlot;
use latch::record::{LatchFigures, LatchSlot};

// What was seen and does not change is in it, too; a call that is refused changes nothing.
// 32 for nobody: the one test `woken < 32` asks whether anybody is woken and whether that party has a slot; with an
// Option there are two.
#[derive(Clone, Copy)]
pub struct LatchEffect {
    pub turns: u32, // that each of the tidying's loops may take: none if nothing changes
    pub woken: u32, // the party whose slot becomes the waiter's; 32 if nobody is woken
    pub waiter: LatchSlot,
    pub slot: LatchSlot, // of the party that calls
    pub seat: PlaceSlot, // the place of its ticket, if it has one
    pub figures: LatchFigures,
    pub answer: Answer,
}
