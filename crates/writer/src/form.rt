// The two forms in which a reply is written: a line of text, or seven bytes.

ghost use Rattle.std.specs.Prelude.{◌≡◌, ℕ, length, refl};
ghost use Rattle.encoding.specs.Form.{as_bytes, as_text, in_form, reply_size};
ghost use Rattle.encoding.specs.Form.{Form as Written};
ghost use Rattle.encoding.specs.Frame.{frame_of, paper};
ghost use Rattle.encoding.specs.Tables.{Pairs};

use crate::text::put_line_by;
use encoding::answer::{Print, put};

// A form is a type and no value, so that a program has the code of its own form alone.
pub trait Form {
    ghost form: { Written };

    ghost SIZE: { ℕ };

    const SIZE: usize; // of a reply

    // The table is the one of `pairs`, which lines of text are written by.
    fn put_reply(pairs: &[u16; 256], out: &mut [u8], party: u8, p: Print)
        requires pairs { Pairs pairs.now }
        requires out_len { length out.old ≡ reply_size form }
        ensures { out.new ≡ in_form form (frame_of party (paper p)) };

    ghost size_is: { SIZE ≡ reply_size form };
}

// A line.
pub struct Text;

impl Form for Text {
    ghost form = { as_text };

    ghost SIZE = { 15 };

    const SIZE: usize = 15;

    ghost size_is = { refl };

    fn put_reply(pairs: &[u16; 256], out: &mut [u8], party: u8, p: Print) {
        put_line_by(pairs, out, party, p);
    }
}

// Seven bytes.
pub struct Bytes;

impl Form for Bytes {
    ghost form = { as_bytes };

    ghost SIZE = { 7 };

    const SIZE: usize = 7;

    ghost size_is = { refl };

    fn put_reply(_pairs: &[u16; 256], out: &mut [u8], party: u8, p: Print) {
        put(out, party, p);
    }
}
