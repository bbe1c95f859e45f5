// The plain line of the desk screen.
//
// A line is bytes as a clerk hands them in, and `line_fits` says which of them fit. So it has no invariant: a type
// with one would ask more of the callers of `call`.

ghost use Rattle.std.specs.Prelude.{◌≡◌, ◌≤◌};
ghost use Rattle.screen.specs.Line.{opened_line, waiters};

use hub::{Answer, Opening};

#[derive(Clone, Copy)]
pub struct Line {
    pub permits: u8, // links, K
    pub parties: u8, // n
    pub named: bool, // does the hub have radios?
    pub kinds: [u8; 32], // of the parties, as at the hub
    pub holding: [bool; 32], // each party: does it hold?
    pub queue: [u8; 32], // the parties that wait, in their order; behind them 0
    pub waiting: u8, // how many wait
}

impl Line {
    // The line of a hub that was just opened; nothing is checked here.
    #[tactic(auto, unfolding(crate::specs::Line::opened_line))]
    pub fn open(o: Opening) -> Line
        ensures { result ≡ opened_line o }
    {
        let kinds = o.kinds; // an array of a field that goes straight into a literal gets no proof
        Line {
            permits: o.permits,
            parties: o.parties,
            named: o.named,
            kinds,
            holding: [false; 32],
            queue: [0; 32],
            waiting: 0,
        }
    }

    // Those that wait, in their order.
    #[tactic(auto, unfolding(crate::specs::Line::waiters))]
    pub fn waiters(&self) -> &[u8]
        requires { self.now.waiting ≤ 32 }
        ensures { result.now ≡ waiters self.now }
    {
        &self.queue[..self.waiting as usize]
    }
}

// The clerks' operations: ask (10), give up (12), give back (13).
#[derive(Clone, Copy, Debug, PartialEq, Eq)]
pub enum Operation {
    Acquire,
    Cancel,
    Release,
}

// A code that is no operation's.
#[derive(Clone, Copy, Debug, PartialEq, Eq)]
pub struct UnknownOperation(pub u8);

impl TryFrom<u8> for Operation {
    ghost use Rattle.std.specs.Prelude.{◌≡◌};
    ghost use Rattle.screen.specs.Codes.{operation_coded};

    type Error = UnknownOperation;

    ghost try_from_gives = { λ code outcome. outcome ≡ operation_coded code };

    fn try_from(code: u8) -> Result<Operation, UnknownOperation> {
        match code {
            0x10 => Ok(Operation::Acquire),
            0x12 => Ok(Operation::Cancel),
            0x13 => Ok(Operation::Release),
            _ => Err(UnknownOperation(code)),
        }
    }
}

// What an opening or an operation answers, and the line that it leaves.
#[derive(Clone, Copy)]
pub struct Moved {
    pub answer: Answer,
    pub line: Line,
}
