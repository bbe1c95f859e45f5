// What the hub does for a move, told from the line alone.

#![tactic(auto)]

ghost use Rattle.std.specs.Prelude.{◌≡◌};
ghost use Rattle.screen.specs.Steps.{accepted_steps, own_steps, steps_to_rest, to_counter};

use hub::answers::Answer;
use screen::record::{Line, Operation};
use screenfit::holder_count;
use screenmove::call;

const TO_WAIT: u8 = 3; // 22, 23, 24

const TO_CANCEL: u8 = 2; // 2E, 30

const TO_HAND_OVER: u8 = 3; // 27, 28, 2A

// 21 or 26; with radios 36 or 38 too.
fn to_counter(named: bool) -> u8
    ensures { result ≡ to_counter named }
{
    if named { 2 } else { 1 }
}

fn own_steps(line: &Line, operation: Operation) -> u8
    ensures { result ≡ own_steps line.now operation }
{
    match operation {
        Operation::Acquire => {
            if holder_count(line) < line.permits {
                to_counter(line.named)
            } else {
                TO_WAIT
            }
        }
        Operation::Cancel => TO_CANCEL,
        Operation::Release => {
            if 1 <= line.waiting {
                TO_HAND_OVER
            } else {
                to_counter(line.named)
            }
        }
    }
}

// How many steps the hub takes to come to rest; none for an operation that is refused.
pub fn steps_to_rest(line: Line, operation: Operation, party: u8) -> u8
    ensures { result ≡ steps_to_rest line operation party }
{
    match call(line, operation, party).answer {
        Answer::Accepted => own_steps(&line, operation),
        _ => 0,
    }
}

// The same of an operation that is accepted: it takes a step at least.
pub fn accepted_steps(line: Line, operation: Operation, party: u8) -> Option<u8>
    ensures { result ≡ accepted_steps line operation party }
{
    let steps = steps_to_rest(line, operation, party);
    if steps == 0 { None } else { Some(steps) }
}
