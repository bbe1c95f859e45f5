// The schedule program: standard input to standard output, in constant memory.

#![tactic(auto)]

ghost use Rattle.frame.specs.Session.{Sound};

use frame::session::{self, Session};
use stream::{Answerer, run};

// The session, and room for what the lines of a piece ask.
#[derive(Drop)]
struct Schedule {
    session: Session,
    requests: [u8; 8192],
}

impl Answerer for Schedule {
    ghost sound = { λ s. Sound s.session };

    ghost longest = { 4096 };

    // An answer has fifteen characters, and there is no more than one for a character.
    ghost width = { 15 };

    // The answer to a last line without its end mark, and the closing line.
    ghost last = { 30 };

    fn feed(&mut self, piece: &[u8], out: &mut [u8]) -> usize {
        let fed = session::feed(self.session, piece, &mut self.requests, out);
        self.session = fed.session;
        15 * fed.lines
    }

    fn finish(&mut self, out: &mut [u8]) -> usize {
        15 * closing::finish(self.session, out)
    }
}

// Where reading or writing fails the program says so, and the closing line is left out: what was
// printed is not whole.
fn main(rt: HostRuntime) {
    let mut schedule = Schedule {
        session: session::begin(),
        requests: [0; 8192],
    };
    if let Err(why) = run(&rt, &mut schedule, &mut [0; 4096], &mut [0; 61440]) {
        let _ = eprintln!(rt; "schedule: {why}");
    }
}
