// One whole operation by value, on any record: the call, then the party's steps until it is at rest.

#![tactic(auto)]

ghost use Rattle.std.specs.Prelude.{◌≡◌, cond, eqb};
ghost use Rattle.hub.specs.Answers.{printed};
ghost use Rattle.hub.specs.Phases.{at_rest};
ghost use Rattle.hub.specs.Record.{read_slot};
ghost use Rattle.operations.specs.Operation.{operated, turns_down};

use encoding::answer::print_of;
use hub::answers::Answer;
use hub::moves::Op;
use hub::record::{Hub, PartySlot};
use operations::Operated;
use phases::at_rest;
use step::calls::{call, step};

// Is the party at rest? A number past the slots is.
fn rests(slots: &[PartySlot; 32], party: u8) -> bool
    ensures { result ≡ at_rest (read_slot slots.now party).phase }
{
    Hub::PARTIES <= party || at_rest(slots[party as usize].phase)
}

// Whom an answer shows as woken; FF if nobody. It stays a number, since the theorems of whole operations (ComesTo,
// RefusalLeaves) tell whom an operation woke by that of `woken_in`.
fn woken_by(answer: Answer) -> u32
    ensures { result ≡ (printed answer).woken }
{
    print_of(answer).woken
}

// The first of two that is not FF.
fn first_of(a: u32, b: u32) -> u32
    ensures { result ≡ cond (eqb a 0xFF) b a }
{
    if a == 0xFF { b } else { a }
}

// Is an answer a refusal?
fn turns_down(answer: Answer) -> bool
    ensures { result ≡ turns_down answer }
{
    print_of(answer).code < 0x20
}

// Ask, give up or give back, and its steps, three at most. It takes any record, any call and any party byte; a refusal
// hands the record back as it came, on which nobody needs to be at rest.
pub fn operate(hub: Hub, op: Op, party: u8) -> Operated
    ensures { (result ≡ operated hub (record { op = op; party = party }))
        × (printed result.answer ≡ printed (operated hub (record { op = op; party = party })).answer) }
{
    let first = call(hub, op, party);
    let mut done = Operated {
        answer: first.answer,
        woken: woken_by(first.answer),
        steps: 0,
        hub: first.hub,
    };
    if turns_down(done.answer) {
        return done;
    }
    for _ in 0..3u32 {
        if rests(&done.hub.slots, party) {
            break;
        }
        let next = step(done.hub, party);
        done.woken = first_of(done.woken, woken_by(next.answer));
        done.steps += 1;
        done.hub = next.hub;
    }
    done
}
