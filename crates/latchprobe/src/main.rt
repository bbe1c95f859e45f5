// One call on any record of a latch, also on one that no opening reaches. A case on standard input is
// a record and a call, 1525 bytes; its reply is the answer and the record that is left, 1530 bytes.
// tests/README.md lays them out.
// probe is this program over a hub: as one function it would take a record's size, how it is
// read, called and written, and that is all that stands here.

#![tactic(auto)]

use encoding::answer::{print_of, put};
use latch::moves::LatchOp;
use latch::record::LatchOutcome;
use latchlayout::{record_bytes, record_of};
use latchstep::calls::call;
use std::io::Read;

fn op_of(byte: u8) -> LatchOp {
    match byte % 4 {
        0 => LatchOp::Await,
        1 => LatchOp::Step,
        2 => LatchOp::Cancel,
        _ => LatchOp::CountDown,
    }
}

// Whether all of the reply was written.
fn print_reply(rt: &HostRuntime, party: u8, o: LatchOutcome) -> bool {
    let mut line = [0u8; 7];
    put(&mut line, party, print_of(o.answer));
    rt.write_all(&line).is_ok() && rt.write_all(&record_bytes(o.latch)).is_ok()
}

// False where the input ends, or writing fails.
fn answer_one(rt: &HostRuntime) -> bool {
    let mut record = [0u8; 1523];
    let mut asked = [0u8; 2];
    if rt.stdin().read_exact(&mut record).is_err() || rt.stdin().read_exact(&mut asked).is_err() {
        return false;
    }
    let [op, party] = asked;
    print_reply(rt, party, call(record_of(&record), op_of(op), party))
}

// A proved loop has to end, so the cases are counted up to a number that no input reaches.
fn main(rt: HostRuntime) {
    for _ in 0..u64::MAX {
        if !answer_one(&rt) {
            return;
        }
    }
}
