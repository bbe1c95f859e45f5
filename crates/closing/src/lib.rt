// The end of an input: a line left without its end mark, and the closing line.

#![tactic(auto)]

mod text; // the closing line

ghost use Rattle.std.specs.Prelude.{◌≡◌, ◌++◌, suc, ◌*◌, ◌≤◌, length, drop};
ghost use Rattle.frame.specs.Session.{Sound, finished, rest};

use frame::session::{Session, feed};
use text::put_closing;

// Answers a line left without its end mark, as if it had one, and closes: one line is printed, or
// two.
pub fn finish(session: Session, out: &mut [u8]) -> usize
    requires sound { Sound session }
    requires reader_in_bounds { 15 * suc (length (rest session.reader)) ≤ length out.old }
    ensures { (result ≡ suc (length (rest session.reader)))
        × (out.new ≡ finished session
        ++ drop (15 * suc (length (rest session.reader))) out.old) }
{
    if session.reader.len == 0 {
        put_closing(session.hub, &mut out[0..15]);
        return 1;
    }
    let mut requests = [0u8; 2];
    let last = feed(session, b"\n", &mut requests, &mut out[0..15]);
    put_closing(last.session.hub, &mut out[15..30]);
    2
}
