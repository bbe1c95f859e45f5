// What an operation comes to on a hub at rest, laid out flat: it is stored without asking of which kind it is.

#![tactic(auto)]

ghost use Rattle.std.specs.Prelude.{◌≡◌, cond, eqb, leb, ◌+◌, ◌%◌, ◌<◌, ◌≤◌};
ghost use Rattle.hub.specs.Answers.{printed};
ghost use Rattle.hub.specs.Phases.{by_waiter, is_free, is_holding, is_waiting};
ghost use Rattle.hub.specs.Radios.{moved};
ghost use Rattle.hub.specs.Record.{MAX_BEGUN, with_place};
ghost use Rattle.hub.specs.Ring.{PLACES};
ghost use Rattle.hub.specs.Table.{above_zero, below_zero};
ghost use Rattle.effects.specs.Small.{CounterFits};
ghost use Rattle.transition.specs.Room.{full_for};
ghost use Rattle.plan.specs.Plan.{after_acquire, after_return, operation_of, plan_acquire, plan_cancel, plan_of};
ghost use Rattle.plan.specs.Plan.{plan_release, radio_by, refused_by, short, ticket_for};

use effects::counter::{above_zero, below_zero};
use hub::answers::Answer;
use hub::record::{Figures, Hub, PartySlot, Phase, Place, PlaceSlot, Pool};
use hub::slots::{with_phase, with_place};
use phases::ticket;
use pool::moving::move_radio;

// What an operation looks at.
#[derive(Clone, Copy)]
pub struct Seen {
    pub party: u8,
    pub kind: u8,
    pub named: bool, // does the hub have radios?
    pub slot: PartySlot,
    pub seat: PlaceSlot, // the place of the ticket that it is about
    pub figures: Figures,
}

// What was seen and does not change is in it, too.
#[derive(Clone, Copy)]
pub struct Plan {
    // 20, or the refusal, as the answer's byte: a refusal has all the fields, too, so that a Result would only add a test.
    pub code: u8,
    // The party that becomes holding; FF if nobody does, which is what the answer says: an Option would be turned back to it.
    pub woken: u32,
    pub steps: u8,
    pub turns: u32, // that each of the tidying's loops may take
    pub figures: Figures,
    pub slot: PartySlot, // of the party that calls
    pub seat: PlaceSlot,
}

// The code of an operation is taken as its byte, here and below: any byte is allowed, which an `Op` would narrow.
// Is there no place for one more ticket? Asked for an ask alone. At rest nobody is to draw one, so that nobody is counted.
pub fn is_full_for(code: u8, oldest: u32, issued: u32) -> bool
    requires { oldest ≤ 1000000 }
    ensures { result ≡ full_for (operation_of code) (leb (oldest + PLACES) issued) }
{
    code == 0x10 && oldest + Hub::PLACES <= issued
}

// The ticket whose place it is about: the next that is drawn, the party's own, the next that is resumed.
fn ticket_for(code: u8, slot: PartySlot, figures: Figures) -> u32
    ensures { result ≡ ticket_for code slot.phase figures }
{
    match code {
        0x10 => figures.issued,
        0x12 => ticket(slot.phase).unwrap_or(0),
        _ => figures.resumed,
    }
}

// Where that place lies in the ring.
pub fn place_for(code: u8, slot: PartySlot, figures: Figures) -> usize
    ensures { result ≡ ticket_for code slot.phase figures % PLACES }
{
    (ticket_for(code, slot, figures) % Hub::PLACES) as usize
}

fn after_acquire(issued: u32, figures: Figures) -> Figures
    requires { CounterFits figures.counter × (figures.begun < 1000000) }
    ensures { result ≡ after_acquire issued figures }
{
    Figures {
        counter: figures.counter - 1,
        issued,
        begun: figures.begun + 1,
        ..figures
    }
}

fn after_return(resumed: u32, figures: Figures) -> Figures
    requires { CounterFits figures.counter }
    ensures { result ≡ after_return resumed figures }
{
    Figures {
        counter: figures.counter + 1,
        resumed,
        ..figures
    }
}

fn refused(code: u8, s: Seen) -> Plan
    ensures { result ≡ refused_by code s }
{
    Plan {
        code,
        woken: 0xFF,
        steps: 0,
        turns: 0,
        figures: s.figures,
        slot: s.slot,
        seat: s.seat,
    }
}

// One step, and one more for the radio of a hub that has some.
fn one_step(named: bool) -> u8
    ensures { result ≡ cond named 2 1 }
{
    if named { 2 } else { 1 }
}

fn short(figures: Figures, phase: Phase, s: Seen) -> Plan
    ensures { result ≡ short figures phase s }
{
    Plan {
        code: 0x20,
        woken: 0xFF,
        steps: one_step(s.named),
        turns: 0,
        figures,
        slot: with_phase(phase, s.slot),
        seat: s.seat,
    }
}

// The place of a party that waits.
fn waited_by(party: u8, seat: PlaceSlot) -> PlaceSlot
    ensures { result ≡ with_place (Place.Waiting party) seat }
{
    with_place(Place::Waiting(party), seat)
}

// The party that waits at a place; FF if none does. Transition's has 32 for none, each as its user stores it: by an Option
// for both each would have a match more.
fn waiter_at(seat: PlaceSlot) -> u32
    ensures { result ≡ by_waiter 0xFF (λ q. q) seat.place }
{
    match seat.place {
        Place::Waiting(q) => u32::from(q),
        _ => 0xFF,
    }
}

fn plan_acquire(full: bool, s: Seen) -> Plan
    requires { CounterFits s.figures.counter × (s.figures.issued ≤ 1000000) }
    ensures { result ≡ plan_acquire (is_free s.slot.phase) (leb MAX_BEGUN s.figures.begun) full
        (above_zero s.figures.counter) s }
{
    let Phase::Free = s.slot.phase else {
        return refused(5, s);
    };
    let figures = s.figures;
    if Hub::MAX_BEGUN <= figures.begun {
        return refused(6, s);
    }
    if full {
        return refused(7, s);
    }
    let t = figures.issued;
    if above_zero(figures.counter) {
        return short(after_acquire(t, figures), Phase::Holding, s);
    }
    Plan {
        code: 0x20,
        woken: 0xFF,
        steps: 3,
        turns: 0,
        figures: after_acquire(t + 1, figures),
        slot: with_phase(Phase::Waiting(t), s.slot),
        seat: waited_by(s.party, s.seat),
    }
}

fn plan_cancel(s: Seen) -> Plan
    requires { CounterFits s.figures.counter }
    ensures { result ≡ plan_cancel (is_waiting s.slot.phase) (eqb s.kind 3) s }
{
    let Phase::Waiting(_) = s.slot.phase else {
        return refused(9, s);
    };
    if s.kind == 3 {
        return refused(10, s);
    }
    Plan {
        code: 0x20,
        woken: 0xFF,
        steps: 2,
        turns: Hub::PLACES,
        figures: after_return(s.figures.resumed, s.figures),
        slot: with_phase(Phase::Free, s.slot),
        seat: with_place(Place::Cancelled, s.seat),
    }
}

fn plan_release(s: Seen) -> Plan
    requires { CounterFits s.figures.counter × (s.figures.resumed ≤ 1000000) }
    ensures { result ≡ plan_release (is_holding s.slot.phase) (below_zero s.figures.counter) s }
{
    let Phase::Holding = s.slot.phase else {
        return refused(11, s);
    };
    let figures = s.figures;
    let t = figures.resumed;
    if !below_zero(figures.counter) {
        return short(after_return(t, figures), Phase::Free, s);
    }
    Plan {
        code: 0x20,
        woken: waiter_at(s.seat),
        steps: 3,
        turns: Hub::PLACES,
        figures: after_return(t + 1, figures),
        slot: with_phase(Phase::Free, s.slot),
        seat: with_place(Place::Done, s.seat),
    }
}

// `full`: is there no place for one more ticket? Only an ask looks at it.
// Tests, and no match as in `ticket_for`: with a match here an operation costs 106 instructions, with tests 97.
pub fn plan_for(code: u8, full: bool, s: Seen) -> Plan
    requires { CounterFits s.figures.counter × (s.figures.issued ≤ 1000000) × (s.figures.resumed ≤ 1000000) }
    ensures { result ≡ plan_of code full s }
{
    if code == 0x10 {
        return plan_acquire(full, s);
    }
    if code == 0x12 {
        return plan_cancel(s);
    }
    plan_release(s)
}

// On a hub with radios: the answer that the radio goes by.
fn radio_by(code: u8, steps: u8, woken: u32) -> Answer
    ensures { result ≡ radio_by code steps woken }
{
    match (code, steps) {
        (0x10, 2) => Answer::Fetched,
        (0x10 | 0x12, _) => Answer::Accepted,
        (_, 3) => Answer::Woke(woken, 0),
        (_, 2) => Answer::Stored,
        _ => Answer::Accepted,
    }
}

// Who has which radio after the operation, on a hub with radios.
pub fn radios_after_operation(code: u8, steps: u8, woken: u32, party: u8, pool: Pool) -> Pool
    requires { pool.stored ≤ 32 }
    ensures { result ≡ moved (printed (radio_by code steps woken)) party pool }
{
    move_radio(radio_by(code, steps, woken), party, pool)
}
