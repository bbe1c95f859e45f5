// The moves by value: a line in, the answer and the line out, for every line and every party byte. A refusal
// hands the line back as it came.

#![tactic(auto)]

mod queue; // those who wait

ghost use Rattle.std.specs.Prelude.{◌≡◌, true, ◌<◌};
ghost use Rattle.hub.specs.Answers.{printed};
ghost use Rattle.screen.specs.Fits.{line_fits};
ghost use Rattle.screen.specs.Moves.{line_move, line_opening, moved_by, own_move, refused_move};

use hub::answers::{Answer, Refusal};
use hub::opening::Opening;
use openhub::kinds::kind_in;
use openhub::{check_opening, sized};
use queue::{join, leave};
use screen::record::{Line, Moved, Operation};
use screenfit::{holder_count, line_fits};

fn refused_move(why: Refusal, line: Line) -> Moved
    ensures { result ≡ refused_move why line }
{
    Moved {
        answer: Answer::Refused(why),
        line,
    }
}

// Opens a line, refused as an opening of the hub is.
pub fn open_line(o: Opening) -> Moved
    ensures { (result ≡ line_opening o) × (printed result.answer ≡ printed (line_opening o).answer) }
{
    if let Err(why) = check_opening(o) {
        return refused_move(why, Line::open(sized(0, 0)));
    }
    Moved {
        answer: Answer::Opened,
        line: Line::open(o),
    }
}

// The moves on a line that fits and has the party: the line that is left, or why not.
fn acquire_on(line: &Line, party: u8) -> Result<Line, Refusal>
    requires line_value { line_fits line.now ≡ true }
    requires party_lt_parties { party < line.now.parties }
    ensures { moved_by result line.now ≡ own_move line.now Operation.Acquire party }
{
    if line.holding[party as usize] || line.waiters().contains(&party) {
        return Err(Refusal::NotFree);
    }
    let mut next = *line;
    if holder_count(line) < line.permits {
        next.holding[party as usize] = true;
    } else {
        join(&mut next, party);
    }
    Ok(next)
}

fn cancel_on(line: &Line, party: u8) -> Result<Line, Refusal>
    requires { line_fits line.now ≡ true }
    ensures { moved_by result line.now ≡ own_move line.now Operation.Cancel party }
{
    let Some(at) = line.waiters().iter().position(|p| *p == party) else {
        return Err(Refusal::NotWaiting);
    };
    if kind_in(line.kinds, party) == 3 {
        return Err(Refusal::NotCancellable);
    }
    let mut next = *line;
    leave(&mut next, at);
    Ok(next)
}

fn release_on(line: &Line, party: u8) -> Result<Line, Refusal>
    requires line_value { line_fits line.now ≡ true }
    requires party_lt_parties { party < line.now.parties }
    ensures { moved_by result line.now ≡ own_move line.now Operation.Release party }
{
    if !line.holding[party as usize] {
        return Err(Refusal::NotHolding);
    }
    let mut next = *line;
    next.holding[party as usize] = false;
    if let Some(first) = line.waiters().first() {
        leave(&mut next, 0);
        next.holding[*first as usize] = true;
    }
    Ok(next)
}

// 1, then 4, then the operation's own.
fn moved(line: &Line, operation: Operation, party: u8) -> Result<Line, Refusal>
    ensures { moved_by result line.now ≡ line_move line.now operation party }
{
    if !line_fits(line) {
        return Err(Refusal::Unfit);
    }
    if line.parties <= party {
        return Err(Refusal::NoSuchParty);
    }
    match operation {
        Operation::Acquire => acquire_on(line, party),
        Operation::Cancel => cancel_on(line, party),
        Operation::Release => release_on(line, party),
    }
}

// Any of them.
pub fn call(line: Line, operation: Operation, party: u8) -> Moved
    ensures { (result ≡ line_move line operation party)
        × (printed result.answer ≡ printed (line_move line operation party).answer) }
{
    match moved(&line, operation, party) {
        Ok(next) => Moved {
            answer: Answer::Accepted,
            line: next,
        },
        Err(why) => refused_move(why, line),
    }
}

// Ask (10).
pub fn acquire(line: Line, party: u8) -> Moved
    ensures { (result ≡ line_move line Operation.Acquire party)
        × (printed result.answer ≡ printed (line_move line Operation.Acquire party).answer) }
{
    call(line, Operation::Acquire, party)
}

// Give up (12).
pub fn cancel(line: Line, party: u8) -> Moved
    ensures { (result ≡ line_move line Operation.Cancel party)
        × (printed result.answer ≡ printed (line_move line Operation.Cancel party).answer) }
{
    call(line, Operation::Cancel, party)
}

// Give back (13).
pub fn release(line: Line, party: u8) -> Moved
    ensures { (result ≡ line_move line Operation.Release party)
        × (printed result.answer ≡ printed (line_move line Operation.Release party).answer) }
{
    call(line, Operation::Release, party)
}
