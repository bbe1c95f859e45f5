// What a record keeps of a party, whichever record: a phase at least.

ghost use Rattle.std.specs.Prelude.{◌≡◌};
ghost use Rattle.hub.specs.declared.record.Phase.{Phase};
ghost use Rattle.hub.specs.Record.{free_slot};

use hub::record::{PartySlot, Phase};
use hub::slots::free_slot;

pub trait Slot: Copy {
    ghost phase_of: { Self → Phase };

    // What stands for a party that is not there.
    ghost nobody: { Self };

    fn phase(&self) -> Phase
        ensures { result ≡ phase_of self.now };

    fn free() -> Self
        ensures { result ≡ nobody };
}

impl Slot for PartySlot {
    ghost phase_of = { λ s. s.phase };

    ghost nobody = { free_slot };

    fn phase(&self) -> Phase {
        self.phase
    }

    fn free() -> PartySlot {
        free_slot()
    }
}
