// The other calls: ask, give up, give back, and which radio a party has.

ghost use Rattle.std.specs.Prelude.{◌≡◌, true, false, eqb};
ghost use Rattle.hub.specs.declared.moves.Op.{Op};
ghost use Rattle.hub.specs.Phases.{is_waiting};
ghost use Rattle.hub.specs.Table.{cancel, decide};
ghost use Rattle.effects.specs.Effect.{effect_of};

use crate::changes::{acted, refused, told, turned};
use crate::effect::Effect;
use crate::figures::with_begun;
use hub::answers::{Answer, Refusal};
use hub::moves::Sight;
use hub::record::{Hub, Phase};
use phases::has_radio;

// Is there no place for one more ticket? Asked only of a party that is free.
#[tactic(auto, unfolding(hub::specs::Table::decide, hub::specs::Table::acquire, hub::specs::Phases::is_one_of))]
pub fn decide_acquire(full: bool, s: Sight) -> Effect
    ensures { result ≡ effect_of (decide Op.Acquire full s) s }
{
    let Phase::Free = s.slot.phase else {
        return refused(Refusal::NotFree, s);
    };
    let begun = s.figures.begun;
    if Hub::MAX_BEGUN <= begun {
        return refused(Refusal::Exhausted, s);
    }
    if full {
        return refused(Refusal::Full, s);
    }
    let counted = with_begun(begun + 1, s.figures);
    acted(Phase::Acquiring, counted, Answer::Accepted, s)
}

// A party whose phase leads to `next` gives up, unless it is of kind 3: 10.
#[tactic(auto, unfolding(hub::specs::Table::cancel))]
fn cancel_to(next: Phase, s: Sight) -> Effect
    ensures { result ≡ effect_of (cancel true (eqb s.kind 3) next s) s }
{
    if s.kind == 3 {
        return refused(Refusal::NotCancellable, s);
    }
    turned(next, Answer::Accepted, s)
}

// Before it waits a give-up is remembered, once. 9 comes before kind 3 is looked at.
#[tactic(auto, unfolding(hub::specs::Table::decide, hub::specs::Table::cancel, hub::specs::Table::given_up, hub::specs::Phases::is_one_of))]
fn cancel_early(s: Sight) -> Effect
    requires { is_waiting s.slot.phase ≡ false }
    ensures { result ≡ effect_of (decide Op.Cancel false s) s }
{
    match s.slot.phase {
        Phase::Acquiring => cancel_to(Phase::AcquiringMarked, s),
        Phase::Suspending => cancel_to(Phase::SuspendingMarked, s),
        Phase::Ticketed(t) => cancel_to(Phase::TicketedMarked(t), s),
        _ => refused(Refusal::NotWaiting, s),
    }
}

// Not one match with `cancel_early`: this is a form of document 01 (docs/DECISIONS.md).
#[tactic(auto, unfolding(hub::specs::Table::decide, hub::specs::Table::given_up, hub::specs::Phases::is_one_of))]
pub fn decide_cancel(s: Sight) -> Effect
    ensures { result ≡ effect_of (decide Op.Cancel false s) s }
{
    let Phase::Waiting(t) = s.slot.phase else {
        return cancel_early(s);
    };
    cancel_to(Phase::Aborting(t), s)
}

#[tactic(auto, unfolding(hub::specs::Table::decide, hub::specs::Table::release, hub::specs::Phases::is_one_of))]
pub fn decide_release(s: Sight) -> Effect
    ensures { result ≡ effect_of (decide Op.Release false s) s }
{
    let Phase::Holding = s.slot.phase else {
        return refused(Refusal::NotHolding, s);
    };
    turned(Phase::Releasing, Answer::Accepted, s)
}

// A party may have a radio on a hub with radios alone.
#[tactic(auto, unfolding(hub::specs::Table::decide, hub::specs::Table::tell_radio))]
pub fn decide_radio(s: Sight) -> Effect
    ensures { result ≡ effect_of (decide Op.Radio false s) s }
{
    if s.named && has_radio(s.slot.phase) {
        told(Answer::Radio(s.radio as u32), s)
    } else {
        told(Answer::NoRadio, s)
    }
}
