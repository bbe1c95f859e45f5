// Lines out of pieces: a line may be cut anywhere.

#![tactic(auto)]

ghost use Rattle.std.specs.Prelude.{◌≡◌, ◌++◌, ◌*◌, ◌≤◌, length, drop};
ghost use Rattle.encoding.specs.Tables.{Values};
ghost use Rattle.reader.specs.Reading.{
  KEPT,
  asked,
  at_line_start,
  emptied,
  header_bytes,
  line_in,
  past,
  pushed,
  requests_written,
};

use line::request::{Header, LONGEST, read_header};
use line::values::call_by;

// One character more than a line may have makes it too long, so that no more are kept.
pub const KEPT: usize = LONGEST + 1;

// The line that is being read: its characters so far, in a buffer of fixed size. That there are at
// most KEPT stands in the contracts: in a field it would stand, proved, in each definition that
// makes a reader.
#[derive(Clone, Copy)]
pub struct Reader {
    pub line: [u8; KEPT],
    pub len: usize,
}

impl Reader {
    // At the start of a line.
    pub fn new() -> Reader
        ensures { result ≡ at_line_start }
    {
        Reader {
            line: [0; KEPT],
            len: 0,
        }
    }

    // What is read of the line.
    pub fn kept(&self) -> &[u8]
        requires { self.now.len ≤ KEPT }
        ensures { result.now ≡ line_in self.now }
    {
        &self.line[..self.len]
    }

    // Keeps a character, or nothing past KEPT.
    pub fn keep(&mut self, c: u8)
        ensures { self.new ≡ pushed self.old c }
    {
        if self.len < KEPT {
            self.line[self.len] = c;
            self.len += 1;
        }
    }

    // Begins the next line.
    pub fn clear(&mut self)
        ensures { self.new ≡ emptied self.old }
    {
        self.len = 0;
    }
}

// The reader past a piece, and how many lines ended in it.
#[derive(Clone, Copy)]
pub struct Read {
    pub reader: Reader,
    pub count: usize,
}

fn put_header(out: &mut [u8], h: Header)
    requires { length out.old ≡ 2 }
    ensures { out.new ≡ header_bytes h }
{
    out[0] = h.code;
    out[1] = h.party;
}

// Reads a piece, and leaves what its lines ask, two bytes each. Behind a line, calls of four
// characters are read by the table, five characters at a time; of the last one the characters are
// kept, as they are of any line. The reader's two fields are variables here, so that its length
// is held in a register: in a `Reader` it lies in memory, and every character loads and stores it.
pub fn read_piece(values: &[u16; 256], reader: Reader, piece: &[u8], requests: &mut [u8]) -> Read
    requires values { Values values.now }
    requires len_bound { reader.len ≤ KEPT }
    requires piece_in_bounds { 2 * length (asked reader piece.now) ≤ length requests.old }
    ensures { (result ≡ record {
      reader = past reader piece.now;
      count = length (asked reader piece.now);
    })
        × (requests.new ≡ requests_written (asked reader piece.now) requests.old) }
{
    let mut line = reader.line;
    let mut len = reader.len;
    let mut count: usize = 0;
    let mut rest = piece;
    while let [c, others @ ..] = rest {
        rest = others;
        if *c != b'\n' {
            if len < KEPT {
                line[len] = *c;
                len += 1;
            }
            continue;
        }
        let header = read_header(&line[..len]);
        put_header(&mut requests[2 * count..2 * count + 2], header);
        len = 0;
        count += 1;
        let mut last = &rest[..0];
        while let [a, b, x, y, b'\n', after @ ..] = rest {
            let call = call_by(values, *a, *b, *x, *y);
            if call.code < 0x10 {
                break;
            }
            put_header(&mut requests[2 * count..2 * count + 2], call);
            last = &rest[..4];
            count += 1;
            rest = after;
        }
        if !last.is_empty() {
            line[..4].copy_from_slice(last);
        }
    }
    Read {
        reader: Reader { line, len },
        count,
    }
}
