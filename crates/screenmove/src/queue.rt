// Those who wait: who joins at the end, and who leaves.

ghost use Rattle.std.specs.Prelude.{◌≡◌, true, [], ◌∷◌, ◌++◌, suc, ◌≤◌, ◌<◌, drop, take, eqb};
ghost use Rattle.hub.specs.Basics.{all_pass};
ghost use Rattle.screen.specs.Line.{waiters, with_waiters};

use screen::record::Line;

// A party joins the queue.
pub(crate) fn join(line: &mut Line, party: u8)
    requires rest_zero { all_pass (λ b. eqb b 0) (drop line.old.waiting line.old.queue) ≡ true }
    requires waiting_bound { line.old.waiting < 32 }
    ensures { line.new ≡ with_waiters (waiters line.old ++ (party ∷ [])) line.old }
{
    line.queue[line.waiting as usize] = party;
    line.waiting += 1;
}

// Whoever stands at a place leaves, and those behind it move up.
pub(crate) fn leave(line: &mut Line, at: usize)
    requires rest_zero { all_pass (λ b. eqb b 0) (drop line.old.waiting line.old.queue) ≡ true }
    requires waiting_bound { line.old.waiting ≤ 32 }
    requires at_lt_waiting { at < line.old.waiting }
    ensures { line.new ≡ with_waiters (take at (waiters line.old) ++ drop (suc at) (waiters line.old)) line.old }
{
    let waiting = line.waiting as usize;
    line.queue.copy_within(at + 1..waiting, at);
    line.queue[waiting - 1] = 0;
    line.waiting -= 1;
}
