// An answer as a line: fourteen characters and the line feed.

ghost use Rattle.std.specs.Prelude.{◌≡◌, length};
ghost use Rattle.encoding.specs.Frame.{frame_of, paper};
ghost use Rattle.encoding.specs.Hex.{text_of};
ghost use Rattle.encoding.specs.Tables.{Pairs};

use encoding::answer::Print;
use encoding::pairs;

// The line, by a table that is lent.
pub(crate) fn put_line_by(pairs: &[u16; 256], out: &mut [u8], party: u8, p: Print)
    requires pairs { Pairs pairs.now }
    requires out_len { length out.old ≡ 15 }
    ensures { out.new ≡ text_of (frame_of party (paper p)) }
{
    let said = pairs[p.code as usize];
    out[0] = (said % 256) as u8;
    out[1] = (said / 256 % 256) as u8;
    let who = pairs[party as usize];
    out[2] = (who % 256) as u8;
    out[3] = (who / 256 % 256) as u8;
    let woken = pairs[(p.woken % 256) as usize];
    out[4] = (woken % 256) as u8;
    out[5] = (woken / 256 % 256) as u8;
    let first = pairs[(p.number / 16777216 % 256) as usize];
    out[6] = (first % 256) as u8;
    out[7] = (first / 256 % 256) as u8;
    let second = pairs[(p.number / 65536 % 256) as usize];
    out[8] = (second % 256) as u8;
    out[9] = (second / 256 % 256) as u8;
    let third = pairs[(p.number / 256 % 256) as usize];
    out[10] = (third % 256) as u8;
    out[11] = (third / 256 % 256) as u8;
    let fourth = pairs[(p.number % 256) as usize];
    out[12] = (fourth % 256) as u8;
    out[13] = (fourth / 256 % 256) as u8;
    out[14] = 0x0A;
}

// One line.
pub fn put_line(out: &mut [u8], party: u8, p: Print)
    requires { length out.old ≡ 15 }
    ensures { out.new ≡ text_of (frame_of party (paper p)) }
{
    put_line_by(&pairs::table(), out, party, p);
}
