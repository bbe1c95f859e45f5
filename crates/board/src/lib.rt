// The calls on a record in place. A shell takes the hub by reference, hands its three fields to a
// function over them, which calls the by-value core, and stores the record that comes back. Its
// contract names `printed` beside the answer, since that is where the paper's codes are.

#![tactic(auto)]

ghost use Rattle.std.specs.Prelude.{◌≡◌};
ghost use Rattle.hub.specs.declared.moves.Op.{Op};
ghost use Rattle.hub.specs.Answers.{printed};
ghost use Rattle.hub.specs.Calls.{called};
ghost use Rattle.hub.specs.Record.{of_fields};

use anycall::call;
use hub::{Answer, Control, Hub, Op, Outcome, PartySlot, PlaceSlot};

fn call_fields(
    op: Op,
    party: u8,
    places: [PlaceSlot; 256],
    slots: [PartySlot; 32],
    control: Control,
) -> Outcome
    ensures { result ≡ called (of_fields places slots control) (record { op = op; party = party }) }
{
    let hub = Hub {
        places,
        slots,
        control,
    };
    call(hub, op, party)
}

// Five shells alike, since the paper asks each call for one that hands the fields over (docs/DECISIONS.md, 20).
pub fn acquire(hub: &mut Hub, party: u8) -> Answer
    ensures { (result ≡ (called hub.old (record { op = Op.Acquire; party = party })).answer)
        × (printed result ≡ printed (called hub.old (record { op = Op.Acquire; party = party })).answer)
        × (hub.new ≡ (called hub.old (record { op = Op.Acquire; party = party })).hub) }
{
    let o = call_fields(Op::Acquire, party, hub.places, hub.slots, hub.control);
    *hub = o.hub;
    o.answer
}

pub fn step(hub: &mut Hub, party: u8) -> Answer
    ensures { (result ≡ (called hub.old (record { op = Op.Step; party = party })).answer)
        × (printed result ≡ printed (called hub.old (record { op = Op.Step; party = party })).answer)
        × (hub.new ≡ (called hub.old (record { op = Op.Step; party = party })).hub) }
{
    let o = call_fields(Op::Step, party, hub.places, hub.slots, hub.control);
    *hub = o.hub;
    o.answer
}

pub fn cancel(hub: &mut Hub, party: u8) -> Answer
    ensures { (result ≡ (called hub.old (record { op = Op.Cancel; party = party })).answer)
        × (printed result ≡ printed (called hub.old (record { op = Op.Cancel; party = party })).answer)
        × (hub.new ≡ (called hub.old (record { op = Op.Cancel; party = party })).hub) }
{
    let o = call_fields(Op::Cancel, party, hub.places, hub.slots, hub.control);
    *hub = o.hub;
    o.answer
}

pub fn release(hub: &mut Hub, party: u8) -> Answer
    ensures { (result ≡ (called hub.old (record { op = Op.Release; party = party })).answer)
        × (printed result ≡ printed (called hub.old (record { op = Op.Release; party = party })).answer)
        × (hub.new ≡ (called hub.old (record { op = Op.Release; party = party })).hub) }
{
    let o = call_fields(Op::Release, party, hub.places, hub.slots, hub.control);
    *hub = o.hub;
    o.answer
}

pub fn radio(hub: &mut Hub, party: u8) -> Answer
    ensures { (result ≡ (called hub.old (record { op = Op.Radio; party = party })).answer)
        × (printed result ≡ printed (called hub.old (record { op = Op.Radio; party = party })).answer)
        × (hub.new ≡ (called hub.old (record { op = Op.Radio; party = party })).hub) }
{
    let o = call_fields(Op::Radio, party, hub.places, hub.slots, hub.control);
    *hub = o.hub;
    o.answer
}

// A call for those who have the record by value: what calls this needs no walk by hand.
pub fn call_on_board(hub: Hub, op: Op, party: u8) -> Outcome
    ensures { (result ≡ called hub (record { op = op; party = party }))
        × (printed result.answer ≡ printed (called hub (record { op = op; party = party })).answer) }
{
    let mut h = hub;
    // each call by its own shell: so what is proved here of any call is proved of them
    let answer = match op {
        Op::Acquire => acquire(&mut h, party),
        Op::Step => step(&mut h, party),
        Op::Cancel => cancel(&mut h, party),
        Op::Release => release(&mut h, party),
        Op::Radio => radio(&mut h, party),
    };
    Outcome { answer, hub: h }
}
