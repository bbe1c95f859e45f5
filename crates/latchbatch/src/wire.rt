// Calls as bytes, two each, and their answers, seven each.

ghost use Rattle.std.specs.Prelude.{◌≡◌, ◌*◌, ◌+◌, ◌≤◌, length};
ghost use Rattle.hub.specs.Answers.{printed};
ghost use Rattle.encoding.specs.Frame.{frame_of};
ghost use Rattle.latchbatch.specs.Batch.{call_at, op_of, with_reply};

use encoding::answer::{print_of, put};
use hub::answers::Answer;
use latch::moves::LatchOp;

// The operation of a code that is a call's.
fn op_of(code: u8) -> LatchOp
    ensures { result ≡ op_of code }
{
    match code {
        0x10 => LatchOp::Await,
        0x11 => LatchOp::Step,
        0x12 => LatchOp::Cancel,
        _ => LatchOp::CountDown,
    }
}

// The operation of call i.
pub(crate) fn op_at(calls: &[u8], i: usize) -> LatchOp
    requires { 2 * i + 2 ≤ length calls.now }
    ensures { result ≡ (call_at calls.now (2 * i)).op }
{
    op_of(calls[2 * i])
}

// Its party.
pub(crate) fn party_at(calls: &[u8], i: usize) -> u8
    requires { 2 * i + 2 ≤ length calls.now }
    ensures { result ≡ (call_at calls.now (2 * i)).party }
{
    calls[2 * i + 1]
}

// The answer to call i, in its place. Inlined, so that a refusal's bytes are constants where it is written: as a call it
// tripled the cost of a call that is refused by 4.
#[inline(always)]
pub(crate) fn put_at(out: &mut [u8], i: usize, party: u8, answer: Answer)
    requires { 7 * i + 7 ≤ length out.old }
    ensures { out.new ≡ with_reply i (frame_of party (printed answer)) out.old }
{
    put(&mut out[7 * i..7 * i + 7], party, print_of(answer));
}
