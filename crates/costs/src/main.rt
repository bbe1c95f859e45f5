// One call in place, chosen by a letter on standard input, so that its instructions can be counted:
// the count with the letter less the count with a dot or a comma. docs/SPEED.md has the method and
// the figures. Nothing else calls the by-value core here: so it is compiled as it is on a board.

#![tactic(auto)]

use board::call_on_board;
use counts::counts;
use encoding::answer::print_of;
use hub::answers::Answer;
use hub::moves::Op;
use hub::record::{Hub, Outcome};
use openhub::sized;
use std::io::Read;

// The record after an ask and three steps: with the permit held, the party waits.
fn waits(hub: Hub, party: u8) -> Hub {
    let mut after = call_on_board(hub, Op::Acquire, party).hub;
    for _ in 0..3 {
        after = call_on_board(after, Op::Step, party).hub;
    }
    after
}

// One permit: party 0 holds it, 1 waits, 2 has asked, 3 is free, and if there are 32 parties the
// others wait too.
fn prepared(parties: u8) -> Hub {
    let fresh = Hub::open(sized(1, parties));
    let asked = call_on_board(fresh, Op::Acquire, 0).hub;
    let holds = call_on_board(asked, Op::Step, 0).hub;
    let mut hub = waits(holds, 1);
    for party in 4..parties {
        hub = waits(hub, party);
    }
    call_on_board(hub, Op::Acquire, 2).hub
}

// Small letters: one party waits. Capitals: 29 do.
fn measured(letter: u8) -> Outcome {
    match letter {
        b'a' => call_on_board(prepared(4), Op::Acquire, 3),
        b's' => call_on_board(prepared(4), Op::Step, 2),
        b'c' => call_on_board(prepared(4), Op::Cancel, 1),
        b'r' => call_on_board(prepared(4), Op::Release, 0),
        b'x' => call_on_board(prepared(4), Op::Release, 3),
        b'.' => Outcome {
            answer: Answer::Opened,
            hub: prepared(4),
        },
        b'A' => call_on_board(prepared(32), Op::Acquire, 3),
        b'S' => call_on_board(prepared(32), Op::Step, 2),
        b'C' => call_on_board(prepared(32), Op::Cancel, 1),
        b'R' => call_on_board(prepared(32), Op::Release, 0),
        b'X' => call_on_board(prepared(32), Op::Release, 3),
        _ => Outcome {
            answer: Answer::Opened,
            hub: prepared(32),
        },
    }
}

fn main(rt: HostRuntime) {
    let mut input = [b'.'; 1];
    let _ = rt.stdin().read(&mut input);
    let o = measured(input[0]);
    // the answer and the record are both printed, so that neither can be left out
    let _ = rt.print(print_of(o.answer).code);
    let _ = rt.print(' ');
    let _ = rt.println(counts(o.hub).held);
}
