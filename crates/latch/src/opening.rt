// Opening a latch with N and n, and refusals 3 and 18.

ghost use Rattle.std.specs.Prelude.{◌≡◌};
ghost use Rattle.latch.specs.Opening.{figures_at, fresh, made, opened_by, opening, refusal_code, start_code, up_to200};
ghost use Rattle.latch.specs.Record.{free_slot};

use crate::record::{Latch, LatchFigures, LatchSlot};
use hub::record::Phase;
use hub::slots::empty_seat;
use openhub::up_to_32;
use phases::slot::Slot;

// Why no latch is opened.
#[derive(Clone, Copy, Debug, PartialEq, Eq)]
pub enum LatchRefusal {
    BadParties = 3, // n is not 1 to 32
    BadCount = 18, // N is not 1 to 200
}

impl From<LatchRefusal> for u8 {
    ghost from_gives = { λ why code. code ≡ refusal_code why };

    fn from(why: LatchRefusal) -> u8 {
        why as u8
    }
}

pub fn free_slot() -> LatchSlot
    ensures { result ≡ free_slot }
{
    LatchSlot {
        phase: Phase::Free,
        raising: false,
        left: 0,
    }
}

impl Slot for LatchSlot {
    ghost phase_of = { λ s. s.phase };

    ghost nobody = { free_slot };

    fn phase(&self) -> Phase {
        self.phase
    }

    fn free() -> LatchSlot {
        free_slot()
    }
}

fn figures_at(count: u8) -> LatchFigures
    ensures { result ≡ figures_at count }
{
    LatchFigures {
        count: u32::from(count),
        waiters: 0,
        issued: 0,
        resumed: 0,
        begun: 0,
    }
}

impl Latch {
    // The record of a latch that was just opened; nothing is checked here.
    #[tactic(auto, unfolding(crate::specs::Opening::fresh))]
    pub fn open(count: u8, parties: u8) -> Latch
        ensures { result ≡ fresh count parties }
    {
        Latch {
            parties,
            figures: figures_at(count),
            oldest: 0,
            places: [empty_seat(); 256],
            slots: [free_slot(); 32],
        }
    }
}

fn up_to_200(n: u8) -> bool
    ensures { result ≡ up_to200 n }
{
    1 <= n && n <= 200
}

// Opens a latch.
#[tactic(auto, unfolding(crate::specs::Opening::opening_if))]
pub fn open_latch(count: u8, parties: u8) -> Result<Latch, LatchRefusal>
    ensures value { result ≡ made (opening count parties) }
    ensures outcome { opened_by result ≡ opening count parties }
    ensures printed { start_code (opened_by result).start ≡ start_code (opening count parties).start }
{
    if !up_to_32(parties) {
        return Err(LatchRefusal::BadParties);
    }
    if !up_to_200(count) {
        return Err(LatchRefusal::BadCount);
    }
    Ok(Latch::open(count, parties))
}
