// Runs a whole list of calls on a hub just opened, and leaves the answers in the caller's buffer.
// What the third demand says of schedules it says of these answers.

#![tactic(auto)]

ghost use Rattle.std.specs.Prelude.{◌≡◌, ℕ, Bool};
ghost use Rattle.hub.specs.Opening.{opening};
ghost use Rattle.encoding.specs.Frame.{is_call};
ghost use Rattle.line.specs.Requests.{requested};
ghost use Rattle.run.specs.Bytes.{well_formed};
ghost use Rattle.run.specs.declared.RunError.{RunError};
ghost use Rattle.run.specs.Run.{error_code, framed_run, ran_code, run_from};

use hub::answers::Refusal;
use hub::opening::Opening;
use line::openings::read_frame;
use openhub::open_hub;
use requests::answer_requests;
use writer::form::Bytes;

// Why a run was not made. The buffer is then as it was.
#[derive(Clone, Copy, Debug, PartialEq, Eq)]
pub enum RunError {
    BadOpening, // the opening's frame is malformed
    NotOpened(Refusal), // 2, 3 or 14 to 17
    Malformed, // an odd number of bytes, or a code that is none of those in question
    NoRoom, // too little room for the answers
}

impl From<Refusal> for RunError {
    ghost from_gives = { λ why error. error ≡ RunError.NotOpened why };

    fn from(why: Refusal) -> RunError {
        RunError::NotOpened(why)
    }
}

impl From<RunError> for u8 {
    ghost from_gives = { λ why code. code ≡ error_code why };

    fn from(why: RunError) -> u8 {
        match why {
            RunError::BadOpening => 12,
            RunError::NotOpened(why) => why.code(),
            RunError::Malformed => 254,
            RunError::NoRoom => 255,
        }
    }
}

// How a run ended, as a number.
pub fn ran_code(ran: Result<(), RunError>) -> u8
    ensures { result ≡ ran_code ran }
{
    match ran {
        Ok(()) => 0,
        Err(why) => u8::from(why),
    }
}

// Is each pair of bytes a code that passes the test, and a party?
pub fn well_formed<F: Fn(u8) -> bool>(pairs: &[u8], is_code: F) -> bool
    requires { F.IsAlwaysCallable is_code }
    ensures { (test : ℕ → Bool) → ((c : ℕ) (b : Bool) → F.post is_code c b → b ≡ test c)
        → result ≡ well_formed test pairs.now }
{
    if pairs.len() % 2 == 1 {
        return false;
    }
    for pair in pairs.chunks_exact(2) {
        if !is_code(pair[0]) {
            return false;
        }
    }
    true
}

fn is_call(code: u8) -> bool
    ensures { result ≡ is_call code }
{
    matches!(code, 0x10..=0x14)
}

// Opens a hub, and runs the calls if they are well formed and there is room for the answers. What
// an opening leads to needs no check, so that `batch` answers them.
pub fn run_calls(o: Opening, calls: &[u8], out: &mut [u8]) -> Result<(), RunError>
    ensures { (ran_code result ≡ (run_from (opening o) calls.now out.old).result)
        × (out.new ≡ (run_from (opening o) calls.now out.old).out) }
{
    let hub = open_hub(o)?;
    if !well_formed(calls, is_call) {
        return Err(RunError::Malformed);
    }
    let count = calls.len() / 2;
    if out.len() / 7 < count {
        return Err(RunError::NoRoom);
    }
    answer_requests::<Bytes>(hub, calls, count, out);
    Ok(())
}

// The same with the opening as a frame, as it stands in a line.
fn run_framed(opening: &[u8], calls: &[u8], out: &mut [u8]) -> Result<(), RunError>
    ensures { (ran_code result ≡ (framed_run (requested opening.now) calls.now out.old).result)
        × (out.new ≡ (framed_run (requested opening.now) calls.now out.old).out) }
{
    let Some(o) = read_frame(opening) else {
        return Err(RunError::BadOpening);
    };
    run_calls(o, calls, out)
}

// The same for C and Rust, which see a number: 0 done, 12 a malformed opening, 2, 3 or 14 to 17 not
// opened, 254 malformed calls, 255 no room.
pub fn hub_run(opening: &[u8], calls: &[u8], out: &mut [u8]) -> u8
    ensures { (result ≡ (framed_run (requested opening.now) calls.now out.old).result)
        × (out.new ≡ (framed_run (requested opening.now) calls.now out.old).out) }
{
    ran_code(run_framed(opening, calls, out))
}
