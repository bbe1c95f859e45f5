// What a line of the desk program is answered: 12, then 13, then the operation's own.

#![tactic(auto)]

ghost use Rattle.std.specs.Prelude.{◌≡◌, eqb, is_some};
ghost use Rattle.line.specs.Requests.{request_of};
ghost use Rattle.deskreply.specs.Replies.{asked_by, code_reply, is_open_line, opening_reply, operation_reply, reply_to};

use encoding::answer::print_of;
use hub::opening::Opening;
use line::request::{OPENING, read_header, read_opening};
use screen::{Line, Operation};
use screenmove::{call, open_line};
use screensteps::accepted_steps;

#[derive(Clone, Copy)]
pub struct DeskReply {
    pub code: u8, // as it is printed: 12 and 13 are no answers of the hub, and `line_text` prints all of them alike
    pub party: Option<u8>, // none for openings and for 12
    pub steps: Option<u8>, // to rest, of an operation that is accepted
    pub line: Line, // as it is left
}

// A line with permits is open.
fn is_open_line(line: &Line) -> bool
    ensures { result ≡ is_open_line line.now }
{
    1 <= line.permits
}

fn code_reply(code: u8, party: Option<u8>, line: Line) -> DeskReply
    ensures { result ≡ code_reply code party line }
{
    DeskReply {
        code,
        party,
        steps: None,
        line,
    }
}

fn opening_reply(o: Opening) -> DeskReply
    ensures { result ≡ opening_reply o }
{
    let m = open_line(o);
    code_reply(print_of(m.answer).code, None, m.line)
}

fn operation_reply(line: Line, operation: Operation, party: u8) -> DeskReply
    ensures { result ≡ operation_reply line operation party }
{
    if !is_open_line(&line) {
        return code_reply(13, Some(party), line);
    }
    let m = call(line, operation, party);
    DeskReply {
        code: print_of(m.answer).code,
        party: Some(party),
        steps: accepted_steps(line, operation, party),
        line: m.line,
    }
}

// The answer to a line of text. It has steps exactly where its code is 20: openings and refusals have none, and a dash is printed.
pub fn reply_to(line: Line, text: &[u8]) -> DeskReply
    ensures value { result ≡ reply_to line (asked_by (request_of text.now)) }
    ensures steps { is_some result.steps ≡ eqb result.code 0x20 }
{
    let h = read_header(text);
    if h.code == OPENING {
        if is_open_line(&line) {
            return code_reply(13, None, line);
        }
        return opening_reply(read_opening(text));
    }
    match Operation::try_from(h.code) {
        Ok(operation) => operation_reply(line, operation, h.party),
        Err(_) => code_reply(12, None, line),
    }
}
