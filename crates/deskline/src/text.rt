// An answer as a line of text.

ghost use Rattle.std.specs.Prelude.{◌≡◌, [], ◌∷◌, ◌+◌, ◌≤◌, length};
ghost use Rattle.screen.specs.Line.{holders, waiters};
ghost use Rattle.deskline.specs.Text.{LONGEST_TEXT, head_text, line_text, numbers, parties_text, put_at};
ghost use Rattle.deskline.specs.Text.{steps_text, steps_told};

use crate::digits::{put_char, put_decimal, put_hex, put_word};
use deskreply::DeskReply;
use screen::Line;

const SPACE: u8 = b' ';

// A party, behind a space.
fn put_number(out: &mut [u8], at: usize, party: u8) -> usize
    requires { at + 4 ≤ length out.old }
    ensures { (result ≡ at + length (numbers (party ∷ [])))
        × (out.new ≡ put_at at (numbers (party ∷ [])) out.old) }
{
    let next = put_char(out, at, SPACE);
    put_decimal(out, next, party)
}

// Those that hold, rising.
fn put_holders(out: &mut [u8], at: usize, line: &Line) -> usize
    requires { at + 128 ≤ length out.old }
    ensures value { (result ≡ at + length (numbers (holders line.now)))
        × (out.new ≡ put_at at (numbers (holders line.now)) out.old) }
    ensures short { result ≤ at + 128 }
{
    let mut end = at;
    for (party, holds) in line.holding.iter().enumerate() {
        if *holds {
            end = put_number(out, end, party as u8);
        }
    }
    end
}

// Those that wait, in their order.
fn put_waiters(out: &mut [u8], at: usize, line: &Line) -> usize
    requires waiting_bound { line.now.waiting ≤ 32 }
    requires at_in_bounds { at + 128 ≤ length out.old }
    ensures value { (result ≡ at + length (numbers (waiters line.now)))
        × (out.new ≡ put_at at (numbers (waiters line.now)) out.old) }
    ensures short { result ≤ at + 128 }
{
    let mut end = at;
    for party in line.waiters() {
        end = put_number(out, end, *party);
    }
    end
}

// The steps to rest, or a dash.
fn put_steps(out: &mut [u8], at: usize, steps: Option<u8>) -> usize
    requires { at + 3 ≤ length out.old }
    ensures { (result ≡ at + length (steps_text steps))
        × (out.new ≡ put_at at (steps_text steps) out.old) }
{
    match steps {
        Some(n) => put_decimal(out, at, n),
        None => put_char(out, at, b'-'),
    }
}

// The steps that are told: none unless the code is 20, whatever else the reply has.
fn steps_told(r: &DeskReply) -> Option<u8>
    ensures { result ≡ steps_told r.now.code r.now.steps }
{
    if r.code == 0x20 { r.steps } else { None }
}

// The code, the party and the steps.
fn put_head(out: &mut [u8], at: usize, r: &DeskReply) -> usize
    requires { at + 9 ≤ length out.old }
    ensures value { (result ≡ at + length (head_text r.now.code r.now.party r.now.steps))
        × (out.new ≡ put_at at (head_text r.now.code r.now.party r.now.steps) out.old) }
    ensures short { result ≤ at + 9 }
{
    let a = put_hex(out, at, r.code);
    let b = put_char(out, a, SPACE);
    let c = put_hex(out, b, r.party.unwrap_or(0xFF));
    let d = put_char(out, c, SPACE);
    put_steps(out, d, steps_told(r))
}

// Who holds and who waits.
fn put_parties(out: &mut [u8], at: usize, line: &Line) -> usize
    requires waiting_bound { line.now.waiting ≤ 32 }
    requires at_in_bounds { at + 270 ≤ length out.old }
    ensures value { (result ≡ at + length (parties_text line.now))
        × (out.new ≡ put_at at (parties_text line.now) out.old) }
    ensures short { result ≤ at + 270 }
{
    let a = put_word(out, at, b" held");
    let b = put_holders(out, a, line);
    let c = put_word(out, b, b" waiting");
    let d = put_waiters(out, c, line);
    put_char(out, d, b'\n')
}

// The whole line.
pub fn put_line_text(out: &mut [u8], at: usize, r: DeskReply) -> usize
    requires waiting_bound { r.line.waiting ≤ 32 }
    requires at_in_bounds { at + LONGEST_TEXT ≤ length out.old }
    ensures value { (result ≡ at + length (line_text r))
        × (out.new ≡ put_at at (line_text r) out.old) }
    ensures short { result ≤ at + LONGEST_TEXT }
{
    let next = put_head(out, at, &r);
    put_parties(out, next, &r.line)
}
