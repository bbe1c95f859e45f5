// The changes that the rows of the table are made of.

ghost use Rattle.std.specs.Prelude.{◌≡◌};
ghost use Rattle.latch.specs.Moves.{Refuse};
ghost use Rattle.latch.specs.Table.{act, put, turn, wake};
ghost use Rattle.latcheffect.specs.Effect.{effect_of};

use crate::effect::LatchEffect;
use hub::answers::{Answer, Refusal};
use hub::record::Place;
use hub::slots::with_place;
use latch::moves::LatchSight;
use latch::opening::free_slot;
use latch::record::{LatchFigures, LatchSlot};

// Nothing changes.
pub fn refused(why: Refusal, s: LatchSight) -> LatchEffect
    ensures { result ≡ effect_of (Refuse why) s }
{
    LatchEffect {
        turns: 0,
        woken: 32,
        waiter: s.waiter,
        slot: s.slot,
        seat: s.seat,
        figures: s.figures,
        answer: Answer::Refused(why),
    }
}

// The party's slot and the figures change.
pub fn acted(slot: LatchSlot, figures: LatchFigures, answer: Answer, s: LatchSight) -> LatchEffect
    ensures { result ≡ effect_of (act slot figures answer) s }
{
    LatchEffect {
        turns: 256,
        woken: 32,
        waiter: s.waiter,
        slot,
        seat: s.seat,
        figures,
        answer,
    }
}

// Its slot alone.
pub fn turned(slot: LatchSlot, answer: Answer, s: LatchSight) -> LatchEffect
    ensures { result ≡ effect_of (turn slot answer s) s }
{
    acted(slot, s.figures, answer, s)
}

// The place of its ticket, too.
pub fn placed(place: Place, slot: LatchSlot, answer: Answer, s: LatchSight) -> LatchEffect
    ensures { result ≡ effect_of (put place slot answer s) s }
{
    LatchEffect {
        seat: with_place(place, s.seat),
        ..turned(slot, answer, s)
    }
}

// And the waiter's slot.
pub fn woke(q: u32, t: u32, slot: LatchSlot, s: LatchSight) -> LatchEffect
    ensures { result ≡ effect_of (wake q t slot s) s }
{
    LatchEffect {
        woken: q,
        waiter: free_slot(),
        ..placed(Place::Done, slot, Answer::Woke(q, t), s)
    }
}
