// One call on any record at all, also on one that no opening reaches. A case on standard input is a
// record and a call, 1883 bytes; its reply is the answer and the record that is left, 1888 bytes.
// tests/README.md lays them out.
// latchprobe is this program over a latch: as one function it would take a record's size, how it is
// read, called and written, and that is all that stands here.

#![tactic(auto)]

use encoding::answer::{print_of, put};
use hub::moves::Op;
use hub::record::Outcome;
use layout::{record_bytes, record_of};
use std::io::Read;
use step::calls::call;

fn op_of(byte: u8) -> Op {
    match byte % 5 {
        0 => Op::Radio,
        1 => Op::Acquire,
        2 => Op::Step,
        3 => Op::Cancel,
        _ => Op::Release,
    }
}

// Whether all of the reply was written.
fn print_reply(rt: &HostRuntime, party: u8, o: Outcome) -> bool {
    let mut line = [0u8; 7];
    put(&mut line, party, print_of(o.answer));
    rt.write_all(&line).is_ok() && rt.write_all(&record_bytes(o.hub)).is_ok()
}

// False where the input ends, or writing fails.
fn answer_one(rt: &HostRuntime) -> bool {
    let mut record = [0u8; 1881];
    let mut asked = [0u8; 2];
    if rt.stdin().read_exact(&mut record).is_err() || rt.stdin().read_exact(&mut asked).is_err() {
        return false;
    }
    let [op, party] = asked;
    print_reply(rt, party, call(record_of(&record), op_of(op), party))
}

// A proved loop has to end, so the cases are counted up to a number that no input reaches.
fn main(rt: HostRuntime) {
    for _ in 0..u64::MAX {
        if !answer_one(&rt) {
            return;
        }
    }
}
