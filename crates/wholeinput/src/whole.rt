// A whole input into a buffer.

ghost use Rattle.std.specs.Prelude.{◌≡◌, ◌++◌, ◌≤◌, eqb, length, drop};
ghost use Rattle.std.specs.List.{count_by};
ghost use Rattle.line.specs.Program.{lines_of, output_of};
ghost use Rattle.wholeinput.specs.Whole.{filled, size, unended};

use closing::finish;
use frame::session::{begin, feed};

// The lines that end in an input. Added up, so that many characters are asked at a time: 3.6 instructions a character, by filter
// and count 7.7.
fn count_ended(input: &[u8]) -> usize
    ensures { result ≡ count_by (λ c. eqb c 0x0A) input.now }
{
    let mut n = 0;
    for c in input {
        n += usize::from(*c == b'\n');
    }
    n
}

// Is the last line left without its end mark?
fn is_unended(input: &[u8]) -> bool
    ensures { result ≡ unended input.now }
{
    matches!(input, [.., last] if *last != b'\n')
}

// The lines of an input; one left without its end mark counts.
fn count_lines(input: &[u8]) -> usize
    ensures { result ≡ length (lines_of input.now) }
{
    count_ended(input) + usize::from(is_unended(input))
}

// What the lines of a piece ask goes to `requests`, which nobody reads afterwards.
fn write_output(input: &[u8], requests: &mut [u8], out: &mut [u8])
    requires in_bounds { 8192 ≤ length requests.old }
    requires input_in_bounds { length (output_of input.now) ≤ length out.old }
    ensures { out.new
        ≡ output_of input.now ++ drop (length (output_of input.now)) out.old }
{
    let mut session = begin();
    let mut lines: usize = 0;
    for piece in input.chunks(4096) {
        let fed = feed(session, piece, requests, &mut out[15 * lines..]);
        session = fed.session;
        lines += fed.lines;
    }
    finish(session, &mut out[15 * lines..]);
}

// The whole output of an input, and how many characters it has; without room for all of it
// nothing is written, and the answer is 0.
pub fn answer_input(input: &[u8], out: &mut [u8]) -> usize
    ensures { (result ≡ size input.now out.old)
        × (out.new ≡ filled input.now out.old) }
{
    let lines = count_lines(input);
    if out.len() / 15 <= lines {
        return 0;
    }
    let mut requests = [0u8; 8192];
    write_output(input, &mut requests, out);
    15 * (lines + 1)
}

// The same for C and Rust.
pub fn hub_schedule(input: &[u8], out: &mut [u8]) -> usize
    ensures { (result ≡ size input.now out.old)
        × (out.new ≡ filled input.now out.old) }
{
    answer_input(input, out)
}
