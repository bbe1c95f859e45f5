// `operate` for C and Rust: `hub_operate` under its own name, with its promises.

#![tactic(auto)]

ghost use Rattle.std.specs.Prelude.{◌≡◌};
ghost use Rattle.line.specs.Requests.{requested};
ghost use Rattle.operate.specs.Ending.{operated_framed};

// Gives 0 done, 12 a malformed opening, 2, 3 or 14 to 17 not opened, 254 malformed operations, 255 no room.
#[unsafe(no_mangle)]
pub extern "C" fn hub_operate(opening: &[u8], operations: &[u8], out: &mut [u8]) -> u8
    ensures { (result
        ≡ (operated_framed (requested opening.now) operations.now out.old).result)
        × (out.new
        ≡ (operated_framed (requested opening.now) operations.now out.old).out) }
{
    operate::hub_operate(opening, operations, out)
}
