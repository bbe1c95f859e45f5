// `run` for C and Rust: `hub_run` under its own name, with its promises.

#![tactic(auto)]

ghost use Rattle.std.specs.Prelude.{◌≡◌};
ghost use Rattle.line.specs.Requests.{requested};
ghost use Rattle.run.specs.Run.{framed_run};

// The opening is a frame as it stands in a line. Gives 0 done, 12 a malformed opening, 2, 3 or 14 to 17
// not opened, 254 malformed calls, 255 no room.
#[unsafe(no_mangle)]
pub extern "C" fn hub_run(opening: &[u8], calls: &[u8], out: &mut [u8]) -> u8
    ensures { (result ≡ (framed_run (requested opening.now) calls.now out.old).result)
        × (out.new ≡ (framed_run (requested opening.now) calls.now out.old).out) }
{
    run::hub_run(opening, calls, out)
}
