// How the programs of cases print bytes, and an answer, as a line.

#![tactic(auto)]

ghost use Rattle.std.specs.Prelude.{◌+◌, ◌*◌, ◌≡◌, length};
ghost use Rattle.hub.specs.Answers.{printed};
ghost use Rattle.encoding.specs.Frame.{frame_of};
ghost use Rattle.encoding.specs.Hex.{text_of};

use encoding::answer::print_of;
use encoding::pairs::table;
use hub::answers::Answer;
use writer::text::put_line;

// Bytes of any number as a line of two characters each.
pub fn put_text(out: &mut [u8], bytes: &[u8])
    requires { length out.old ≡ 2 * length bytes.now + 1 }
    ensures { out.new ≡ text_of bytes.now }
{
    let pairs = table();
    for (i, byte) in bytes.iter().enumerate() {
        let [first, second] = pairs[*byte as usize].to_le_bytes();
        out[2 * i] = first;
        out[2 * i + 1] = second;
    }
    out[2 * bytes.len()] = 0x0A;
}

pub fn answer_line(party: u8, answer: Answer) -> [u8; 15]
    ensures { result ≡ text_of (frame_of party (printed answer)) }
{
    let mut line = [0u8; 15];
    put_line(&mut line, party, print_of(answer));
    line
}
