// One whole operation on a record in place: ask, give up or give back, and the steps of its party until that party is
// at rest. A shell takes the hub by reference, hands its fields to a function over them, which calls the by-value
// core, and stores the record that comes back, as in the crate board.

#![tactic(auto)]

ghost use Rattle.std.specs.Prelude.{◌≡◌};
ghost use Rattle.hub.specs.Answers.{printed};
ghost use Rattle.hub.specs.Record.{of_fields};
ghost use Rattle.operations.specs.Operation.{operated, told_of};

use hub::{Control, Hub, Op, PartySlot, PlaceSlot};
use operations::{Operated, Told};

fn operate_fields(
    op: Op,
    party: u8,
    places: [PlaceSlot; 256],
    slots: [PartySlot; 32],
    control: Control,
) -> Operated
    ensures { result ≡ operated (of_fields places slots control) (record { op = op; party = party }) }
{
    let hub = Hub {
        places,
        slots,
        control,
    };
    torest::operate(hub, op, party)
}

// Any record and any party byte may be handed in; a refusal leaves the record as it came.
pub fn operate(hub: &mut Hub, op: Op, party: u8) -> Told
    ensures { (result ≡ told_of (operated hub.old (record { op = op; party = party })))
        × (printed result.answer ≡ printed (operated hub.old (record { op = op; party = party })).answer)
        × (hub.new ≡ (operated hub.old (record { op = op; party = party })).hub) }
{
    let o = operate_fields(op, party, hub.places, hub.slots, hub.control);
    *hub = o.hub;
    Told {
        answer: o.answer,
        woken: o.woken,
        steps: o.steps,
    }
}

// The same for those who have the record by value: what calls this needs no walk by hand.
pub fn operate_on_board(hub: Hub, op: Op, party: u8) -> Operated
    ensures { (result ≡ operated hub (record { op = op; party = party }))
        × (printed result.answer ≡ printed (operated hub (record { op = op; party = party })).answer) }
{
    let mut h = hub;
    let told = operate(&mut h, op, party);
    Operated {
        answer: told.answer,
        woken: told.woken,
        steps: told.steps,
        hub: h,
    }
}
