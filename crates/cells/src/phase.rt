// A phase by its name, its ticket and its mark. These are functions and no From: a byte alone is no phase, nor the other way
// round.

ghost use Rattle.std.specs.Prelude.{◌≡◌};
ghost use Rattle.cells.specs.Phases.{mark_of, marked, phase_name, phase_named};

use hub::record::Phase;

// The phase of a name. From 14 up a name is one of asked with more said beside it.
pub fn phase_named(name: u8, t: u32) -> Phase
    ensures { result ≡ phase_named name t }
{
    match name {
        0 => Phase::Free,
        1 => Phase::Holding,
        2 => Phase::Waiting(t),
        3 => Phase::Acquiring,
        4 => Phase::Suspending,
        5 => Phase::Ticketed(t),
        6 => Phase::Aborting(t),
        7 => Phase::Cancelling(t),
        8 => Phase::Refusing(t),
        9 => Phase::Releasing,
        10 => Phase::Resuming,
        11 => Phase::ResumingAt(t),
        12 => Phase::Fetching,
        13 => Phase::Storing,
        _ => Phase::Acquiring,
    }
}

// A mark stands elsewhere, and a phase with one has the name of the phase without. A phase that has no name is written as asked.
#[tactic(auto, unfolding(hub::specs::Phases::is_one_of))]
pub fn phase_name(phase: Phase) -> u8
    ensures { result ≡ phase_name phase }
{
    match phase {
        Phase::Free => 0,
        Phase::Holding => 1,
        Phase::Waiting(_) => 2,
        Phase::Suspending | Phase::SuspendingMarked => 4,
        Phase::Ticketed(_) | Phase::TicketedMarked(_) => 5,
        Phase::Aborting(_) => 6,
        Phase::Cancelling(_) => 7,
        Phase::Refusing(_) => 8,
        Phase::Releasing => 9,
        Phase::Resuming => 10,
        Phase::ResumingAt(_) => 11,
        Phase::Fetching => 12,
        Phase::Storing => 13,
        _ => 3,
    }
}

// A phase with its mark. A mark counts in three phases, and there is none in the others.
pub fn marked(phase: Phase, mark: u8) -> Phase
    ensures { result ≡ marked phase mark }
{
    if mark % 2 == 0 {
        return phase;
    }
    match phase {
        Phase::Acquiring => Phase::AcquiringMarked,
        Phase::Suspending => Phase::SuspendingMarked,
        Phase::Ticketed(t) => Phase::TicketedMarked(t),
        _ => phase,
    }
}

#[tactic(auto, unfolding(hub::specs::Phases::is_one_of))]
pub fn mark_of(phase: Phase) -> u8
    ensures { result ≡ mark_of phase }
{
    u8::from(matches!(
        phase,
        Phase::AcquiringMarked | Phase::SuspendingMarked | Phase::TicketedMarked(_)
    ))
}
