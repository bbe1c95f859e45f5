// Standard input to standard output, piece by piece, in constant memory: the loop of the programs that answer lines.

#![tactic(auto)]

ghost use Rattle.std.specs.Prelude.{ℕ, ◌*◌, ◌≤◌, length};

use std::fmt;
use std::io::Read;

// Who answers an input that comes in pieces.
pub trait Answerer {
    // What holds from the beginning on, whatever was fed.
    ghost sound: { Self → Type 0 };

    // The longest piece that may be fed; how much is printed for each of its characters at most;
    // and how much at the end of the input.
    ghost longest: { ℕ };

    ghost width: { ℕ };

    ghost last: { ℕ };

    // Answers the lines that end in a piece, at the start of a buffer: how many characters.
    fn feed(&mut self, piece: &[u8], out: &mut [u8]) -> usize
        requires sound { sound self.old }
        requires short { length piece.now ≤ longest }
        requires room { width * length piece.now ≤ length out.old }
        ensures sound { sound self.new }
        ensures within { result ≤ length out.old };

    // Answers what is left at the end of the input.
    fn finish(&mut self, out: &mut [u8]) -> usize
        requires sound { sound self.old }
        requires room { last ≤ length out.old }
        ensures sound { sound self.new }
        ensures within { result ≤ length out.old };
}

// Why a run stopped before the end of the input: what was printed is not whole.
#[derive(Clone, Copy, PartialEq, Eq, Debug)]
pub enum Failure {
    Input,
    Output,
}

impl fmt::Display for Failure {
    fn fmt<W: fmt::Write>(&self, f: &mut fmt::Formatter<W>) -> fmt::Result {
        match self {
            Failure::Input => write!(f, "standard input could not be read"),
            Failure::Output => write!(f, "standard output could not be written"),
        }
    }
}

// Reads pieces until the input ends, and writes what is answered to each and to the end. A proved
// loop has to end, so the pieces are counted up to a number that no input reaches.
pub fn run<A: Answerer>(
    rt: &HostRuntime,
    answerer: &mut A,
    piece: &mut [u8],
    out: &mut [u8],
) -> Result<(), Failure>
    requires sound { A.sound answerer.old }
    requires short { length piece.old ≤ A.longest }
    requires room { A.width * length piece.old ≤ length out.old }
    requires last { A.last ≤ length out.old }
    ensures { A.sound answerer.new }
{
    for _ in 0..u64::MAX {
        let n = rt.stdin().read(piece).or(Err(Failure::Input))?;
        if n == 0 {
            let size = answerer.finish(out);
            return rt.write_all(&out[..size]).or(Err(Failure::Output));
        }
        let size = answerer.feed(&piece[..n], out);
        rt.write_all(&out[..size]).or(Err(Failure::Output))?;
    }
    Ok(())
}
