// Runs a whole list of operations on a hub just opened, and leaves the answers in the caller's buffer.

#![tactic(auto)]

ghost use Rattle.std.specs.Prelude.{◌≡◌};
ghost use Rattle.line.specs.Requests.{requested};
ghost use Rattle.perform.specs.Bytes.{is_operation_code};
ghost use Rattle.run.specs.Run.{ran_code};
ghost use Rattle.operate.specs.Ending.{operated_framed};

use line::openings::read_frame;
use openhub::open_hub;
use perform::perform_operations;
use run::{RunError, ran_code, well_formed};

fn is_operation(code: u8) -> bool
    ensures { result ≡ is_operation_code code }
{
    matches!(code, 0x10 | 0x12 | 0x13)
}

// Opens a hub, and performs the operations if they are well formed and there is room for the answers.
fn operate(opening: &[u8], operations: &[u8], out: &mut [u8]) -> Result<(), RunError>
    ensures { (ran_code result
        ≡ (operated_framed (requested opening.now) operations.now out.old).result)
        × (out.new
        ≡ (operated_framed (requested opening.now) operations.now out.old).out) }
{
    let Some(o) = read_frame(opening) else {
        return Err(RunError::BadOpening);
    };
    let hub = open_hub(o)?;
    if !well_formed(operations, is_operation) {
        return Err(RunError::Malformed);
    }
    if out.len() / 3 < operations.len() / 2 {
        return Err(RunError::NoRoom);
    }
    perform_operations(hub, operations, out);
    Ok(())
}

// The same for C and Rust, which see a number: 0 done, 12 a malformed opening, 2, 3 or 14 to 17 not opened, 254
// malformed operations, 255 no room.
pub fn hub_operate(opening: &[u8], operations: &[u8], out: &mut [u8]) -> u8
    ensures { (result
        ≡ (operated_framed (requested opening.now) operations.now out.old).result)
        × (out.new
        ≡ (operated_framed (requested opening.now) operations.now out.old).out) }
{
    ran_code(operate(opening, operations, out))
}
