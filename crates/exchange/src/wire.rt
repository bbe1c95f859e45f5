// Requests as bytes, two each, and the replies to them.

ghost use Rattle.std.specs.Prelude.{◌≡◌, ◌+◌, ◌*◌, ◌≤◌, length, slice_index};
ghost use Rattle.hub.specs.Answers.{plain, printed};
ghost use Rattle.encoding.specs.Form.{reply_size};
ghost use Rattle.encoding.specs.Frame.{frame_of, paper};
ghost use Rattle.encoding.specs.Tables.{Pairs};
ghost use Rattle.exchange.specs.Admission.{admission_of};
ghost use Rattle.exchange.specs.Wire.{with_reply};

use crate::admission::{Unasked, admit};
use effects::effect::Effect;
use encoding::answer::{Print, plain, print_of};
use writer::form::Form;

// The code of request i.
pub fn code_at(requests: &[u8], i: usize) -> u8
    requires { 2 * i + 2 ≤ length requests.now }
    ensures { result ≡ slice_index requests.now (2 * i) }
{
    requests[2 * i]
}

// Its party.
pub fn party_at(requests: &[u8], i: usize) -> u8
    requires { 2 * i + 2 ≤ length requests.now }
    ensures { result ≡ slice_index requests.now (2 * i + 1) }
{
    requests[2 * i + 1]
}

// Is request i a call for the table?
pub fn admit_at(requests: &[u8], i: usize, parties: u8) -> Result<(), Unasked>
    requires { 2 * i + 2 ≤ length requests.now }
    ensures { result
        ≡ admission_of (slice_index requests.now (2 * i)) (slice_index requests.now (2 * i + 1)) parties }
{
    admit(code_at(requests, i), party_at(requests, i), parties)
}

// The reply to request i, behind those before it.
fn put_reply_at<F: Form>(pairs: &[u16; 256], out: &mut [u8], i: usize, party: u8, print: Print)
    requires pairs { Pairs pairs.now }
    requires form_in_bounds { reply_size F.form * i + reply_size F.form ≤ length out.old }
    ensures { out.new
        ≡ with_reply F.form (reply_size F.form * i) (frame_of party (paper print)) out.old }
{
    let at = F::SIZE * i;
    F::put_reply(pairs, &mut out[at..at + F::SIZE], party, print);
}

// What a request is answered that was not admitted.
pub fn put_refusal<F: Form>(pairs: &[u16; 256], out: &mut [u8], i: usize, party: u8, code: u8)
    requires pairs { Pairs pairs.now }
    requires form_in_bounds { reply_size F.form * i + reply_size F.form ≤ length out.old }
    ensures { out.new
        ≡ with_reply F.form (reply_size F.form * i) (frame_of party (plain code))
        out.old }
{
    put_reply_at::<F>(pairs, out, i, party, plain(code));
}

// What a call is answered.
pub fn put_answer<F: Form>(pairs: &[u16; 256], out: &mut [u8], i: usize, party: u8, e: Effect)
    requires pairs { Pairs pairs.now }
    requires form_in_bounds { reply_size F.form * i + reply_size F.form ≤ length out.old }
    ensures { out.new
        ≡ with_reply F.form (reply_size F.form * i) (frame_of party (printed e.answer))
        out.old }
{
    put_reply_at::<F>(pairs, out, i, party, print_of(e.answer));
}
