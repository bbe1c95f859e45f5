// A run over an input that comes in pieces.

ghost use Rattle.std.specs.Prelude.{◌≡◌, ◌++◌, ◌*◌, ◌≤◌, length, drop};
ghost use Rattle.batch.specs.Batch.{Reachable};
ghost use Rattle.beforeopen.specs.Opening.{asked_open};
ghost use Rattle.reader.specs.Reading.{KEPT, asked, requests_written};
ghost use Rattle.frame.specs.Session.{Sound, at_start, fed, rest, told};

use beforeopen::opening::{is_open, until_open};
use hub::Hub;
use line::values;
use openhub::sized;
use reader::{Reader, read_piece};
use requests::answer_requests;
use writer::form::Text;

// The record, and the line that is being read.
#[derive(Clone, Copy)]
pub struct Session {
    pub hub: Hub,
    pub reader: Reader,
}

// The session past a piece, and how many lines are printed for it, of fifteen characters each.
#[derive(Clone, Copy)]
pub struct Fed {
    pub session: Session,
    pub lines: usize,
}

// Before the first piece.
pub fn begin() -> Session
    ensures { result ≡ at_start }
{
    Session {
        hub: Hub::open(sized(0, 0)),
        reader: Reader::new(),
    }
}

// Answers the lines that end in a piece, on a hub that is open. What they ask is left in `requests`,
// two bytes each.
fn feed_open(session: Session, piece: &[u8], requests: &mut [u8], out: &mut [u8]) -> Fed
    requires reachable { Reachable session.hub }
    requires len_bound { session.reader.len ≤ KEPT }
    requires piece_in_bounds { 2 * length (asked session.reader piece.now) ≤ length requests.old }
    requires piece_in_bounds_2 { 15 * length (asked session.reader piece.now) ≤ length out.old }
    ensures { (result ≡ record {
      session = fed session piece.now;
      lines = length (asked session.reader piece.now);
    })
        × (requests.new
        ≡ requests_written (asked session.reader piece.now) requests.old)
        × (out.new ≡ told session piece.now
        ++ drop (15 * length (asked session.reader piece.now)) out.old) }
{
    let table = values::table();
    let read = read_piece(&table, session.reader, piece, requests);
    let hub = answer_requests::<Text>(session.hub, requests, read.count, out);
    let reader = read.reader;
    Fed {
        session: Session { hub, reader },
        lines: read.count,
    }
}

// Answers the lines that end in a piece. What they ask once a hub is open is left in `requests`.
pub fn feed(session: Session, piece: &[u8], requests: &mut [u8], out: &mut [u8]) -> Fed
    requires sound { Sound session }
    requires piece_in_bounds { 2 * length piece.now ≤ length requests.old }
    requires piece_in_bounds_2 { 15 * length (asked session.reader piece.now) ≤ length out.old }
    ensures { (result ≡ record {
      session = fed session piece.now;
      lines = length (asked session.reader piece.now);
    })
        × (requests.new
        ≡ requests_written (asked_open session.hub session.reader piece.now)
        requests.old)
        × (out.new ≡ told session piece.now
        ++ drop (15 * length (asked session.reader piece.now)) out.old) }
{
    let begun = until_open(session.hub, session.reader, piece, out);
    let early = Session {
        hub: begun.hub,
        reader: begun.reader,
    };
    if !is_open(early.hub) {
        return Fed {
            session: early,
            lines: begun.lines,
        };
    }
    let left = &mut out[15 * begun.lines..];
    let rest = feed_open(early, &piece[begun.read..], requests, left);
    Fed {
        session: rest.session,
        lines: begun.lines + rest.lines,
    }
}
