// Calls in place, and whole operations. A call prints code, party, woken party, number; a whole operation code, party,
// woken party, steps; and between them is what the record shows.
// The expected output, beside this program, was written by hand from the paper.

#![tactic(auto)]

use board::call_on_board;
use boardrest::operate_on_board;
use caselines::{answer_line, put_text};
use counts::counts;
use encoding::answer::print_of;
use hub::moves::Op;
use hub::record::{Figures, Hub};
use openhub::sized;

// Prints characters. Where that fails there is nobody to tell.
fn put(rt: &HostRuntime, text: &[u8]) {
    let _ = rt.write_all(text);
}

// A number, in decimal.
fn put_number(rt: &HostRuntime, n: u64) {
    let _ = rt.print(n);
}

// What a record shows: held, at the counter, on the way, waiting.
fn print_counts(rt: &HostRuntime, hub: Hub) {
    let c = counts(hub);
    put_number(rt, c.held as u64);
    put(rt, b" held, ");
    put_number(rt, c.available as u64);
    put(rt, b" at the counter, ");
    put_number(rt, c.onway as u64);
    put(rt, b" on the way, ");
    put_number(rt, c.waiting as u64);
    put(rt, b" waiting\n");
}

// A hub just opened.
fn opened(permits: u8, parties: u8) -> Hub {
    Hub::open(sized(permits, parties))
}

fn op_of(code: u8) -> Op {
    match code {
        0x10 => Op::Acquire,
        0x11 => Op::Step,
        0x12 => Op::Cancel,
        0x13 => Op::Release,
        _ => Op::Radio,
    }
}

// A call in place.
fn call(rt: &HostRuntime, hub: Hub, code: u8, party: u8) -> Hub {
    let o = call_on_board(hub, op_of(code), party);
    put(rt, &answer_line(party, o.answer));
    o.hub
}

// A whole operation in place.
fn operate(rt: &HostRuntime, hub: Hub, code: u8, party: u8) -> Hub {
    let o = operate_on_board(hub, op_of(code), party);
    let told = [
        print_of(o.answer).code,
        party,
        (o.woken % 256) as u8,
        (o.steps % 256) as u8,
    ];
    let mut line = [0u8; 9];
    put_text(&mut line, &told);
    put(rt, &line);
    o.hub
}

// One entry of a list: 00 shows the record, 10 to 14 is a call, 50, 52 and 53 are whole operations.
fn enter(rt: &HostRuntime, hub: Hub, code: u8, party: u8) -> Hub {
    if code == 0 {
        print_counts(rt, hub);
        return hub;
    }
    if 0x40 <= code {
        return operate(rt, hub, code - 0x40, party);
    }
    call(rt, hub, code, party)
}

// A list of entries, each its code and its party.
fn play(rt: &HostRuntime, hub: Hub, list: &[u8]) {
    let mut h = hub;
    for entry in list.chunks_exact(2) {
        h = enter(rt, h, entry[0], entry[1]);
    }
}

// Two of three parties take both permits, and the third waits. One gives back, and its permit is on the way to the
// third; which gives up, once, and refuses it. The one that gave back comes to rest.
fn in_place(rt: &HostRuntime) {
    play(
        rt,
        opened(2, 3),
        b"\x00\x00\
          \x10\x00\x11\x00\x10\x01\x11\x01\x10\x02\x11\x02\x11\x02\x11\x02\x00\x00\
          \x13\x00\x11\x00\x00\x00\
          \x12\x02\x12\x02\x11\x02\x00\x00\x11\x02\x00\x00\
          \x11\x00\x11\x00\x14\x00\x00\x00",
    );
}

// One holds, and two wait; one of them gives up and waits again, and the other is served; the one that gave up is served
// last. Then nothing changes.
fn to_rest(rt: &HostRuntime) {
    play(
        rt,
        opened(1, 3),
        b"\x50\x00\x50\x01\x50\x02\x00\x00\
          \x52\x01\x50\x01\x53\x00\x00\x00\
          \x50\x02\x53\x02\x53\x01\x53\x01\x52\x01\x50\x03\x50\xFF\x00\x00",
    );
}

// The waits of party 30 stay.
fn built_in_kinds(rt: &HostRuntime) {
    play(rt, opened(1, 31), b"\x50\x00\x50\x1E\x52\x1E\x00\x00");
}

// Where party 0 is of kind 3 and party 30 a door, the waits of 0 stay and those of 30 do not.
fn own_kinds(rt: &HostRuntime) {
    let mut o = sized(1, 31);
    o.kinds = [0; 32];
    o.kinds[0] = 3;
    o.kinds[30] = 1;
    play(
        rt,
        Hub::open(o),
        b"\x50\x01\x50\x00\x50\x1E\x52\x00\x52\x1E\x00\x00",
    );
}

// Party 0 asks on a hub of so many permits with these figures.
fn asked_at(rt: &HostRuntime, permits: u8, counter: i32, issued: u32, begun: u32) {
    let mut h = opened(permits, 3);
    h.control.figures = Figures {
        counter,
        issued,
        resumed: 0,
        begun,
    };
    play(rt, h, b"\x50\x00\x00\x00");
}

// Kinds that were not 32 in number do not fit.
fn miscounted(rt: &HostRuntime) {
    let mut h = opened(1, 3);
    h.control.opening.counted = false;
    play(rt, h, b"\x53\x00\x00\x00");
}

// A party that has asked: one more ask is refused and makes no step of the first; a give-up is remembered, and forgotten
// with the permit that the next step gets. Where there is none an early give-up takes five steps; three are made, and a
// second is refused.
fn asked_before(rt: &HostRuntime) {
    play(
        rt,
        opened(1, 3),
        b"\x10\x00\x00\x00\x50\x00\x00\x00\x52\x00\x00\x00\
          \x10\x01\x00\x00\x52\x01\x52\x01\x00\x00",
    );
}

fn main(rt: HostRuntime) {
    in_place(&rt);
    put(&rt, b"\n");
    to_rest(&rt);
    built_in_kinds(&rt);
    own_kinds(&rt);
    put(&rt, b"\n");
    // a record that does not fit, a million asks begun, 256 tickets issued
    asked_at(&rt, 32, 33, 0, 0);
    asked_at(&rt, 1, 1, 0, 1000000);
    asked_at(&rt, 1, 1, 256, 0);
    miscounted(&rt);
    asked_before(&rt);
}
