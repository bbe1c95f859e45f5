// The changes that the rows of the table are made of.

ghost use Rattle.std.specs.Prelude.{◌≡◌};
ghost use Rattle.hub.specs.Moves.{Refuse, Tell, Act};
ghost use Rattle.hub.specs.Table.{change, give, put, take, turn, wake};
ghost use Rattle.effects.specs.Effect.{effect_of};
ghost use Rattle.effects.specs.Small.{CounterFits};

use crate::effect::Effect;
use crate::figures::with_counter;
use hub::answers::{Answer, Refusal};
use hub::moves::Sight;
use hub::record::{Figures, Phase, Place};
use hub::slots::{with_phase, with_place};

// An answer, and nothing changes.
pub fn told(answer: Answer, s: Sight) -> Effect
    ensures { result ≡ effect_of (Tell answer) s }
{
    Effect {
        turns: 0,
        woken: 32,
        waiter: s.waiter,
        slot: s.slot,
        seat: s.seat,
        figures: s.figures,
        answer,
    }
}

pub fn refused(why: Refusal, s: Sight) -> Effect
    ensures { result ≡ effect_of (Refuse why) s }
{
    told(Answer::Refused(why), s)
}

// The party's phase and the figures change.
pub fn acted(phase: Phase, figures: Figures, answer: Answer, s: Sight) -> Effect
    ensures { result ≡ effect_of (Act (change phase figures answer s)) s }
{
    Effect {
        turns: 256,
        slot: with_phase(phase, s.slot),
        figures,
        ..told(answer, s)
    }
}

// Its phase alone.
pub fn turned(phase: Phase, answer: Answer, s: Sight) -> Effect
    ensures { result ≡ effect_of (turn phase answer s) s }
{
    acted(phase, s.figures, answer, s)
}

// The counter: one taken off, one added.
pub fn taken(phase: Phase, answer: Answer, s: Sight) -> Effect
    requires { CounterFits s.figures.counter }
    ensures { result ≡ effect_of (take phase answer s) s }
{
    let counter = s.figures.counter - 1;
    acted(phase, with_counter(counter, s.figures), answer, s)
}

pub fn given(phase: Phase, answer: Answer, s: Sight) -> Effect
    requires { CounterFits s.figures.counter }
    ensures { result ≡ effect_of (give phase answer s) s }
{
    let counter = s.figures.counter + 1;
    acted(phase, with_counter(counter, s.figures), answer, s)
}

// The place of its ticket, too.
pub fn placed(place: Place, phase: Phase, answer: Answer, s: Sight) -> Effect
    ensures { result ≡ effect_of (put place phase answer s) s }
{
    Effect {
        turns: 256,
        slot: with_phase(phase, s.slot),
        seat: with_place(place, s.seat),
        ..told(answer, s)
    }
}

// And the waiter's slot.
pub fn woke(q: u32, t: u32, s: Sight) -> Effect
    ensures { result ≡ effect_of (wake q t s) s }
{
    Effect {
        turns: 256,
        woken: q,
        waiter: with_phase(Phase::Holding, s.waiter),
        slot: with_phase(Phase::Free, s.slot),
        seat: with_place(Place::Done, s.seat),
        ..told(Answer::Woke(q, t), s)
    }
}
