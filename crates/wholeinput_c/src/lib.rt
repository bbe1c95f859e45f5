// `wholeinput` for C and Rust: `hub_schedule` under its own name, with its promises.

#![tactic(auto)]

ghost use Rattle.std.specs.Prelude.{◌≡◌};
ghost use Rattle.wholeinput.specs.Whole.{filled, size};

// The whole output of an input, and how many characters it has; without room for all of it
// nothing is written, and the answer is 0.
#[unsafe(no_mangle)]
pub extern "C" fn hub_schedule(input: &[u8], out: &mut [u8]) -> usize
    ensures { (result ≡ size input.now out.old)
        × (out.new ≡ filled input.now out.old) }
{
    wholeinput::whole::hub_schedule(input, out)
}
