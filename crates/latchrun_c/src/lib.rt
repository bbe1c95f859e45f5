// `latchrun` for C and Rust: `latch_run` under its own name, with its promises.

#![tactic(auto)]

ghost use Rattle.std.specs.Prelude.{◌≡◌};
ghost use Rattle.latchrun.specs.Run.{ran_code, run_of};

// Gives 0 done, 3 or 18 not opened, 254 malformed calls, 255 no room.
#[unsafe(no_mangle)]
pub extern "C" fn latch_run(count: u8, parties: u8, calls: &[u8], out: &mut [u8]) -> u8
    ensures { (result ≡ ran_code (run_of count parties calls.now out.old).ran)
        × (out.new ≡ (run_of count parties calls.now out.old).out) }
{
    latchrun::latch_run(count, parties, calls, out)
}
