// Is a line one that its moves reach?

#![tactic(auto)]

ghost use Rattle.std.specs.Prelude.{◌≡◌, true, ◌&&◌, ◌≤◌, eqb, ltb, drop};
ghost use Rattle.hub.specs.Basics.{all_pass};
ghost use Rattle.hub.specs.Radios.{differ};
ghost use Rattle.screen.specs.Fits.{everybody, holder_count, line_fits};
ghost use Rattle.screen.specs.Line.{holders};

use openhub::kinds::{has_desk, kinds_known};
use openhub::up_to_32;
use screen::record::Line;

// How many hold. Added up, so that many are asked at a time: by filter and count they are asked one by one, which takes some 230
// instructions, two to five times a line of the desk.
pub fn holder_count(line: &Line) -> u8
    ensures { result ≡ holder_count line.now }
{
    let mut n = 0;
    for holds in &line.holding {
        n += u8::from(*holds);
    }
    n
}

// Are all that hold below n?
fn holders_below(line: &Line) -> bool
    requires { line.now.parties ≤ 32 }
    ensures { result ≡ all_pass (λ p. ltb p line.now.parties) (holders line.now) }
{
    line.holding[line.parties as usize..]
        .iter()
        .all(|holds| !*holds)
}

// Are those that wait below n too, and is nobody on the line twice? Whoever holds is met already; each of
// those that wait is marked when it is met.
fn queue_fits(line: &Line) -> bool
    requires parties_bound { line.now.parties ≤ 32 }
    requires waiting_bound { line.now.waiting ≤ 32 }
    requires line_value { all_pass (λ p. ltb p line.now.parties) (holders line.now) ≡ true }
    ensures { result ≡ differ (everybody line.now) && all_pass (λ p. ltb p line.now.parties) (everybody line.now) }
{
    let mut met = line.holding;
    for party in line.waiters() {
        if line.parties <= *party {
            return false;
        }
        if met[*party as usize] {
            return false;
        }
        met[*party as usize] = true;
    }
    true
}

// Are the unused bytes of the queue 0?
fn rest_is_zero(line: &Line) -> bool
    requires { line.now.waiting ≤ 32 }
    ensures { result ≡ all_pass (λ b. eqb b 0) (drop line.now.waiting line.now.queue) }
{
    line.queue[line.waiting as usize..].iter().all(|b| *b == 0)
}

pub fn line_fits(line: &Line) -> bool
    ensures { result ≡ line_fits line.now }
{
    up_to_32(line.permits)
        && up_to_32(line.parties)
        && line.waiting <= 32
        && holders_below(line)
        && queue_fits(line)
        && holder_count(line) <= line.permits
        && rest_is_zero(line)
        && kinds_known(line.kinds)
        && has_desk(line.kinds)
        && (line.waiting == 0 || holder_count(line) == line.permits)
}
