// Lines before a hub is open. Each is answered by itself, and the one that opens the hub is the last.

ghost use Rattle.std.specs.Prelude.{◌≡◌, true, ◌++◌, ◌*◌, ◌≤◌, length, drop};
ghost use Rattle.encoding.specs.Form.{as_text};
ghost use Rattle.line.specs.Program.{before_open, is_open, replies_in, reply_in};
ghost use Rattle.line.specs.Requests.{is_opening, request_of};
ghost use Rattle.beforeopen.specs.Opening.{SessionHub, begun_by, early, hub_opened, refusal};
ghost use Rattle.reader.specs.Reading.{KEPT, asked};

use encoding::answer::{plain, print_of};
use hub::{Answer, Hub};
use line::request::{Header, MALFORMED, OPENING, read_header, read_opening};
use openhub::open_hub;
use reader::Reader;
use writer::text::put_line;

// What the first characters of a piece lead to: those until a hub is open, or all of them.
#[derive(Clone, Copy)]
pub struct Begun {
    pub hub: Hub,
    pub reader: Reader,
    pub read: usize, // characters
    pub lines: usize,
}

// A hub that is open has permits.
pub fn is_open(hub: Hub) -> bool
    ensures { result ≡ is_open hub }
{
    1 <= hub.control.opening.permits
}

// Refuses a line that is no opening: 12, or 13 for a call.
fn refuse(out: &mut [u8], header: Header)
    requires { length out.old ≡ 15 }
    ensures { out.new ≡ reply_in as_text (refusal header.code header.party) }
{
    let number = if header.code == MALFORMED { 12 } else { 13 };
    put_line(out, header.party, plain(number));
}

// Answers an opening, and gives the hub that it opens; a refused one opens none.
fn open_as(line: &[u8], out: &mut [u8]) -> Option<Hub>
    requires line_value { is_opening (request_of line.now) ≡ true }
    requires out_len { length out.old ≡ 15 }
    ensures { (result ≡ hub_opened (request_of line.now))
        × (out.new ≡ reply_in as_text (before_open (request_of line.now)).reply) }
{
    match open_hub(read_opening(line)) {
        Ok(hub) => {
            put_line(out, 0xFF, print_of(Answer::Opened));
            Some(hub)
        }
        Err(why) => {
            put_line(out, 0xFF, print_of(Answer::Refused(why)));
            None
        }
    }
}

// Answers a line while no hub is open, and gives the hub that it opens, if it opens one.
fn answer_alone(line: &[u8], out: &mut [u8]) -> Option<Hub>
    requires { length out.old ≡ 15 }
    ensures { (result ≡ hub_opened (request_of line.now))
        × (out.new ≡ reply_in as_text (before_open (request_of line.now)).reply) }
{
    let header = read_header(line);
    if header.code == OPENING {
        return open_as(line, out);
    }
    refuse(out, header);
    None
}

// Reads a piece until a hub is open, a character at a time.
pub fn until_open(hub: Hub, reader: Reader, piece: &[u8], out: &mut [u8]) -> Begun
    requires session_hub { SessionHub hub }
    requires len_bound { reader.len ≤ KEPT }
    requires piece_in_bounds { 15 * length (asked reader piece.now) ≤ length out.old }
    ensures { (result ≡ begun_by hub reader piece.now)
        × (out.new ≡ replies_in as_text hub (asked reader (early hub reader piece.now))
        ++ drop (15 * length (asked reader (early hub reader piece.now))) out.old) }
{
    if is_open(hub) {
        return Begun {
            hub,
            reader,
            read: 0,
            lines: 0,
        };
    }
    let mut current = reader;
    let mut lines: usize = 0;
    for (i, c) in piece.iter().enumerate() {
        if *c != b'\n' {
            current.keep(*c);
            continue;
        }
        let answered = answer_alone(current.kept(), &mut out[15 * lines..15 * lines + 15]);
        current.clear();
        lines += 1;
        if let Some(opened) = answered {
            return Begun {
                hub: opened,
                reader: current,
                read: i + 1,
                lines,
            };
        }
    }
    Begun {
        hub,
        reader: current,
        read: piece.len(),
        lines,
    }
}
