// Are the radios of a record those of its opening, each with one party, at one place or stored? A table has those that
// are still to be met, and each that is met is taken out of it.

ghost use Rattle.std.specs.Prelude.{◌≡◌, ◌≤◌, Bool, ◌∷◌, []};
ghost use Rattle.hub.specs.Fits.{radios_fit};
ghost use Rattle.hub.specs.Phases.{has_radio, is_permit};
ghost use Rattle.hub.specs.Radios.{radios_in, ring_from, shown};
ghost use Rattle.pool.specs.Missing.{Counted, left_by, met, missing_of, none_counted, none_missing};

use hub::record::{Hub, PartySlot, Place, PlaceSlot};
use openhub::radios_differ;
use phases::has_radio;

// What may keep a radio: a party, by its phase, and a place, where a permit lies.
trait Keeper {
    ghost keeps: { Self → Bool };

    fn keeps(&self) -> bool
        ensures { result ≡ keeps self.now };
}

impl Keeper for PartySlot {
    ghost keeps = { λ slot. has_radio slot.phase };

    fn keeps(&self) -> bool {
        has_radio(self.phase)
    }
}

impl Keeper for PlaceSlot {
    ghost keeps = { λ seat. is_permit seat.place };

    #[tactic(auto, unfolding(hub::specs::Phases::is_place_of))]
    fn keeps(&self) -> bool {
        matches!(self.place, Place::Permit)
    }
}

// Is each radio still to be met, and how many are?
#[derive(Clone, Copy)]
pub struct Missing {
    pub radios: [bool; 256],
    pub count: usize,
}

impl Missing {
    // Those of a list.
    fn of(radios: &[u8]) -> Missing
        ensures { result ≡ missing_of radios.now }
    {
        let mut missing = Missing {
            radios: [false; 256],
            count: radios.len(),
        };
        for radio in radios {
            missing.radios[*radio as usize] = true;
        }
        missing
    }

    // None where a radio is met that is not missing.
    #[tactic(auto, unfolding(crate::specs::Missing::met))]
    fn meet(&mut self, radio: u8) -> Option<()>
        ensures { left_by result self.new ≡ met (radio ∷ []) self.old }
    {
        if !self.radios[radio as usize] {
            return None;
        }
        self.radios[radio as usize] = false;
        self.count = self.count.saturating_sub(1);
        Some(())
    }

    // With those that keep one.
    fn with<K: Keeper>(&mut self, keepers: &[K], radios: &[u8]) -> Option<()>
        ensures { left_by result self.new ≡ met (shown K.keeps keepers.now radios.now) self.old }
    {
        for (keeper, radio) in keepers.iter().zip(radios) {
            if keeper.keeps() {
                self.meet(*radio)?;
            }
        }
        Some(())
    }

    // In the store.
    fn in_store(&mut self, store: &[u8; 32], first: u32, stored: u32) -> Option<()>
        ensures { left_by result self.new ≡ met (ring_from store.now first stored) self.old }
    {
        for i in 0..stored {
            self.meet(store[((first % 32 + i % 32) % 32) as usize])?;
        }
        Some(())
    }

    // Is the count 0? Where it is the table's own, no radio is left in the table then.
    fn is_empty(&self) -> bool
        ensures counted { result ≡ none_counted self.now }
        ensures none { Counted self.now → result ≡ none_missing self.now }
    {
        self.count == 0
    }

    // With the parties, at the places and in the store.
    fn in_all(&mut self, hub: &Hub) -> Option<()>
        ensures { left_by result self.new ≡ met (radios_in hub.now.slots hub.now.places hub.now.control.pool) self.old }
    {
        let pool = &hub.control.pool;
        self.with(&hub.slots, &pool.hands)?;
        self.with(&hub.places, &pool.laid)?;
        self.in_store(&pool.store, pool.first, pool.stored)
    }
}

// On a hub with radios, of which no two are alike, each is met once, and no other.
pub fn radios_fit(hub: Hub) -> bool
    requires { hub.control.opening.permits ≤ 32 }
    ensures { result ≡ radios_fit hub }
{
    let opening = hub.control.opening;
    if !opening.named {
        return true;
    }
    if !radios_differ(opening) {
        return false;
    }
    let mut missing = Missing::of(&opening.radios[..opening.permits as usize]);
    missing.in_all(&hub).is_some() && missing.is_empty()
}
