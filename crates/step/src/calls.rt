// The calls by value: a record in, the answer and the record out, for every record and every party byte. A refusal hands
// the record back as it came. There is a function for each, since README.md names them as what a user calls.

ghost use Rattle.std.specs.Prelude.{◌≡◌};
ghost use Rattle.hub.specs.Answers.{printed};
ghost use Rattle.hub.specs.Calls.{called};

use hub::moves::Op;
use hub::record::{Hub, Outcome};

// Any of them.
pub use anycall::call;

// Ask (10).
pub fn acquire(hub: Hub, party: u8) -> Outcome
    ensures { (result ≡ called hub (record { op = Op.Acquire; party = party }))
        × (printed result.answer ≡ printed (called hub (record { op = Op.Acquire; party = party })).answer) }
{
    call(hub, Op::Acquire, party)
}

// Step (11).
pub fn step(hub: Hub, party: u8) -> Outcome
    ensures { (result ≡ called hub (record { op = Op.Step; party = party }))
        × (printed result.answer ≡ printed (called hub (record { op = Op.Step; party = party })).answer) }
{
    call(hub, Op::Step, party)
}

// Give up (12).
pub fn cancel(hub: Hub, party: u8) -> Outcome
    ensures { (result ≡ called hub (record { op = Op.Cancel; party = party }))
        × (printed result.answer ≡ printed (called hub (record { op = Op.Cancel; party = party })).answer) }
{
    call(hub, Op::Cancel, party)
}

// Give back (13).
pub fn release(hub: Hub, party: u8) -> Outcome
    ensures { (result ≡ called hub (record { op = Op.Release; party = party }))
        × (printed result.answer ≡ printed (called hub (record { op = Op.Release; party = party })).answer) }
{
    call(hub, Op::Release, party)
}

// Which radio a party has (14).
pub fn radio(hub: Hub, party: u8) -> Outcome
    ensures { (result ≡ called hub (record { op = Op.Radio; party = party }))
        × (printed result.answer ≡ printed (called hub (record { op = Op.Radio; party = party })).answer) }
{
    call(hub, Op::Radio, party)
}
