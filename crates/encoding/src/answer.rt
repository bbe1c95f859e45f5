// How an answer is written: its code, the party, the woken party and the number, seven bytes.

ghost use Rattle.std.specs.Prelude.{◌≡◌, length};
ghost use Rattle.hub.specs.Answers.{plain, printed, with_number};
ghost use Rattle.encoding.specs.Frame.{frame_of, paper};

use hub::answers::Answer;

// What an answer prints: its code, the woken party and the number, as they are written. As options each of the two that
// write a Print would put FF and FFFFFFFF back.
#[derive(Clone, Copy)]
pub struct Print {
    pub code: u8,
    pub woken: u32, // FF if nobody was woken
    pub number: u32, // FFFFFFFF if the answer has none
}

pub fn plain(code: u8) -> Print
    ensures { paper result ≡ plain code }
{
    Print {
        code,
        woken: 0xFF,
        number: 0xFFFFFFFF,
    }
}

fn with_number(code: u8, number: u32) -> Print
    ensures { paper result ≡ with_number code number }
{
    Print {
        number,
        ..plain(code)
    }
}

// A function and no From: beside `plain` its name says what is made of an answer.
pub fn print_of(answer: Answer) -> Print
    ensures { paper result ≡ printed answer }
{
    match answer {
        Answer::Refused(why) => plain(why.code()),
        Answer::Opened => plain(0x1F),
        Answer::Accepted => plain(0x20),
        Answer::Acquired => plain(0x21),
        Answer::MustWait => plain(0x22),
        Answer::DrewTicket(t) => with_number(0x23, t),
        Answer::Parked(t) => with_number(0x24, t),
        Answer::TookPermit(t) => with_number(0x25, t),
        Answer::Returned => plain(0x26),
        Answer::MustResume => plain(0x27),
        Answer::StartedResume(t) => with_number(0x28, t),
        Answer::LeftPermit(t) => with_number(0x29, t),
        Answer::Woke(q, t) => Print {
            code: 0x2A,
            woken: q,
            number: t,
        },
        Answer::Delegated(t) => with_number(0x2B, t),
        Answer::Skipped(t) => with_number(0x2C, t),
        Answer::ResumeRefused(t) => with_number(0x2D, t),
        Answer::MustCancel => plain(0x2E),
        Answer::MustRefuse => plain(0x2F),
        Answer::MarkedCancelled(t) => with_number(0x30, t),
        Answer::PassedOn(t) => with_number(0x31, t),
        Answer::MarkedRefused(t) => with_number(0x32, t),
        Answer::DroppedPermit(t) => with_number(0x33, t),
        Answer::Fetched => plain(0x36),
        Answer::NotYet => plain(0x37),
        Answer::Stored => plain(0x38),
        Answer::Radio(r) => with_number(0x39, r),
        Answer::NoRadio => plain(0x39),
    }
}

// The seven bytes of one answer.
pub fn put(out: &mut [u8], party: u8, p: Print)
    requires { length out.old ≡ 7 }
    ensures { out.new ≡ frame_of party (paper p) }
{
    let [first, second, third, fourth] = p.number.to_be_bytes();
    let woken = (p.woken % 256) as u8;
    out.copy_from_slice(&[p.code, party, woken, first, second, third, fourth]);
}
