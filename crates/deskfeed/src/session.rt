// A run over an input that comes in pieces.

ghost use Rattle.std.specs.Prelude.{◌≡◌, ◌++◌, ◌*◌, ◌≤◌, length, drop};
ghost use Rattle.reader.specs.Reading.{asked};
ghost use Rattle.deskfeed.specs.Session.{Sound, at_start, fed, finished, told};
ghost use Rattle.deskline.specs.Text.{LONGEST_TEXT};

use deskline::text::put_line_text;
use deskreply::reply_to;
use openhub::sized;
use reader::{KEPT, Reader};
use screen::Line;

// The screen's line, and the line of text that is being read. Of the shape of frame's session, and a
// type of its own: callers read frame's `hub` by its name, and what each answers is its own definition.
#[derive(Clone, Copy)]
pub struct Session {
    pub line: Line,
    pub reader: Reader,
}

// The session past a piece, and how many characters are printed for it.
#[derive(Clone, Copy)]
pub struct Fed {
    pub session: Session,
    pub size: usize,
}

// Before the first piece.
pub fn begin() -> Session
    ensures { result ≡ at_start }
{
    Session {
        line: Line::open(sized(0, 0)),
        reader: Reader::new(),
    }
}

// Answers the lines that end in a piece. The reader's two fields are variables here, as in read_piece.
pub fn feed(session: Session, piece: &[u8], out: &mut [u8]) -> Fed
    requires sound { Sound session }
    requires piece_in_bounds { LONGEST_TEXT * length (asked session.reader piece.now) ≤ length out.old }
    ensures { (result ≡ record {
      session = fed session piece.now;
      size = length (told session piece.now);
    })
        × (out.new ≡ told session piece.now
        ++ drop (length (told session piece.now)) out.old) }
{
    let mut line = session.line;
    let mut text = session.reader.line;
    let mut len = session.reader.len;
    let mut size: usize = 0;
    for c in piece {
        if *c != b'\n' {
            if len < KEPT {
                text[len] = *c;
                len += 1;
                continue; // not one `continue` for both branches: each of them is proved by itself
            }
            continue;
        }
        let reply = reply_to(line, &text[..len]);
        size = put_line_text(out, size, reply);
        line = reply.line;
        len = 0;
    }
    Fed {
        session: Session {
            line,
            reader: Reader { line: text, len },
        },
        size,
    }
}

// Answers a line left without its end mark, as if it had one.
pub fn finish(session: Session, out: &mut [u8]) -> usize
    requires sound { Sound session }
    requires in_bounds { LONGEST_TEXT ≤ length out.old }
    ensures { (result ≡ length (finished session))
        × (out.new ≡ finished session ++ drop (length (finished session)) out.old) }
{
    if session.reader.len == 0 {
        return 0;
    }
    feed(session, b"\n", out).size
}
