// The desk program: standard input to standard output, in constant memory.

#![tactic(auto)]

ghost use Rattle.deskfeed.specs.Session.{Sound};
ghost use Rattle.deskline.specs.Text.{LONGEST_TEXT};

use deskfeed::session::{self, Session};
use stream::{Answerer, run};

#[derive(Drop)]
struct Desk {
    session: Session,
}

impl Answerer for Desk {
    ghost sound = { λ d. Sound d.session };

    ghost longest = { 256 };

    ghost width = { LONGEST_TEXT };

    ghost last = { LONGEST_TEXT };

    fn feed(&mut self, piece: &[u8], out: &mut [u8]) -> usize {
        let fed = session::feed(self.session, piece, out);
        self.session = fed.session;
        fed.size
    }

    fn finish(&mut self, out: &mut [u8]) -> usize {
        session::finish(self.session, out)
    }
}

// Where reading or writing fails the program says so, and a last line without its end mark is left
// out: what was printed is not whole.
fn main(rt: HostRuntime) {
    let mut desk = Desk {
        session: session::begin(),
    };
    if let Err(why) = run(&rt, &mut desk, &mut [0; 256], &mut [0; 71424]) {
        let _ = eprintln!(rt; "desk: {why}");
    }
}
