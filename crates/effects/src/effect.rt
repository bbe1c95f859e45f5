// A decision laid out flat: it is stored without asking of which kind it is. As an enum it cost a
// tenth of a line more. 32 stands for nobody and a latch has a type of its own (`LatchEffect`): `woken` as an Option in
// one generic type for both, tried together with Option forms of the waiter, cost 159, 153 and 141 instructions a line
// (mixed, waits, full) at best, where this form cost 150, 144 and 131.

use hub::answers::Answer;
use hub::record::{Figures, PartySlot, PlaceSlot};

// What was seen and does not change is in it, too; a call that is refused, or answered 37 or 39,
// changes nothing.
#[derive(Clone, Copy)]
pub struct Effect {
    pub turns: u32, // that each of the tidying's loops may take: none if nothing changes
    pub woken: u32, // the party whose slot becomes the waiter's; 32 if nobody is woken
    pub waiter: PartySlot,
    pub slot: PartySlot, // of the party that calls
    pub seat: PlaceSlot, // the place of its ticket, if it has one
    pub figures: Figures,
    pub answer: Answer,
}
