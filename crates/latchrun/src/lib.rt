// Runs a whole list of calls on a latch just opened, and leaves the answers in the caller's buffer.
// What holds of every schedule of a latch holds of these answers.

#![tactic(auto)]

ghost use Rattle.std.specs.Prelude.{◌≡◌};
ghost use Rattle.latchrun.specs.Bytes.{is_call};
ghost use Rattle.latchrun.specs.declared.LatchRunError.{LatchRunError};
ghost use Rattle.latchrun.specs.Run.{error_code, ran_code, run_of};

use latch::opening::{LatchRefusal, open_latch};
use latchbatch::answer_calls;
use run::well_formed;

// Why a run was not made. The buffer is then as it was.
#[derive(Clone, Copy, Debug, PartialEq, Eq)]
pub enum LatchRunError {
    NotOpened(LatchRefusal), // 3 or 18
    Malformed, // an odd number of bytes, or a code that is none of the calls
    NoRoom, // fewer than seven bytes of room for each call
}

impl From<LatchRefusal> for LatchRunError {
    ghost from_gives = { λ why error. error ≡ LatchRunError.NotOpened why };

    fn from(why: LatchRefusal) -> LatchRunError {
        LatchRunError::NotOpened(why)
    }
}

impl From<LatchRunError> for u8 {
    ghost from_gives = { λ why code. code ≡ error_code why };

    fn from(why: LatchRunError) -> u8 {
        match why {
            LatchRunError::NotOpened(why) => u8::from(why),
            LatchRunError::Malformed => 254,
            LatchRunError::NoRoom => 255,
        }
    }
}

fn is_call(code: u8) -> bool
    ensures { result ≡ is_call code }
{
    matches!(code, 0x10..=0x13)
}

// Opens a latch, and runs the calls if they are well formed and there is room for the answers. What
// an opening leads to needs no check, so that `latchbatch` answers them.
pub fn run_latch(count: u8, parties: u8, calls: &[u8], out: &mut [u8]) -> Result<(), LatchRunError>
    ensures { (result ≡ (run_of count parties calls.now out.old).ran)
        × (out.new ≡ (run_of count parties calls.now out.old).out) }
{
    let latch = open_latch(count, parties)?;
    if !well_formed(calls, is_call) {
        return Err(LatchRunError::Malformed);
    }
    let total = calls.len() / 2;
    if out.len() / 7 < total {
        return Err(LatchRunError::NoRoom);
    }
    answer_calls(latch, calls, total, out);
    Ok(())
}

// The same for C and Rust, which see a number: 0 done, 3 or 18 not opened, 254 malformed calls, 255 no
// room.
pub fn latch_run(count: u8, parties: u8, calls: &[u8], out: &mut [u8]) -> u8
    ensures { (result ≡ ran_code (run_of count parties calls.now out.old).ran)
        × (out.new ≡ (run_of count parties calls.now out.old).out) }
{
    match run_latch(count, parties, calls, out) {
        Ok(()) => 0,
        Err(why) => u8::from(why),
    }
}
