// The calls by value: a record in, the answer and the record out, for every record and every party byte. A refusal hands
// the record back as it came. There is a function for each, since README.md names them as what a user calls.

ghost use Rattle.std.specs.Prelude.{◌≡◌};
ghost use Rattle.hub.specs.Answers.{printed};
ghost use Rattle.latch.specs.Calls.{called};

use latch::moves::LatchOp;
use latch::record::{Latch, LatchOutcome};

// Any of them.
pub use latchcall::call;

// Await (10): a keyword, so it has a longer name.
pub fn await_zero(latch: Latch, party: u8) -> LatchOutcome
    ensures { (result ≡ called latch (record { op = LatchOp.Await; party = party }))
        × (printed result.answer ≡ printed (called latch (record { op = LatchOp.Await; party = party })).answer) }
{
    call(latch, LatchOp::Await, party)
}

// Step (11).
pub fn step(latch: Latch, party: u8) -> LatchOutcome
    ensures { (result ≡ called latch (record { op = LatchOp.Step; party = party }))
        × (printed result.answer ≡ printed (called latch (record { op = LatchOp.Step; party = party })).answer) }
{
    call(latch, LatchOp::Step, party)
}

// Give up (12).
pub fn cancel(latch: Latch, party: u8) -> LatchOutcome
    ensures { (result ≡ called latch (record { op = LatchOp.Cancel; party = party }))
        × (printed result.answer ≡ printed (called latch (record { op = LatchOp.Cancel; party = party })).answer) }
{
    call(latch, LatchOp::Cancel, party)
}

// Count down (13).
pub fn count_down(latch: Latch, party: u8) -> LatchOutcome
    ensures { (result ≡ called latch (record { op = LatchOp.CountDown; party = party }))
        × (printed result.answer ≡ printed (called latch (record { op = LatchOp.CountDown; party = party })).answer) }
{
    call(latch, LatchOp::CountDown, party)
}
