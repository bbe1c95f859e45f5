// What a slot is made of.

ghost use Rattle.std.specs.Prelude.{◌≡◌, ◌-◌};
ghost use Rattle.latch.specs.Record.{carry_on, in_phase, to_raise, with_left};

use hub::record::Phase;
use latch::opening::free_slot;
use latch::record::LatchSlot;

pub fn in_phase(phase: Phase) -> LatchSlot
    ensures { result ≡ in_phase phase }
{
    LatchSlot {
        phase,
        ..free_slot()
    }
}

pub fn to_raise(phase: Phase) -> LatchSlot
    ensures { result ≡ to_raise phase }
{
    LatchSlot {
        raising: true,
        ..in_phase(phase)
    }
}

pub fn with_left(phase: Phase, left: u32) -> LatchSlot
    ensures { result ≡ with_left phase left }
{
    LatchSlot {
        left,
        ..in_phase(phase)
    }
}

// Of a party that used one of its hand-overs: carrying while some are left, else free.
pub fn used_one(left: u32) -> LatchSlot
    ensures { result ≡ carry_on (left - 1) }
{
    match left.saturating_sub(1) {
        0 => free_slot(),
        rest => with_left(Phase::Resuming, rest),
    }
}
