// An opening, and the record of a hub that was just opened: "The counter, signed, K at opening".

ghost use Rattle.std.specs.Prelude.{◌≡◌};
ghost use Rattle.hub.specs.Opening.{figures_at, fresh, pool_at};

use crate::record::{Control, Figures, Hub, Pool};
use crate::slots::{empty_seat, free_slot};

// What an opening asks for. Flags stand beside radios and kinds, and no options: a record may hold any bytes there, used or
// not, and `with_radios`, `with_kinds` and the bytes of a record (crates/layout) are told of them.
#[derive(Clone, Copy, PartialEq, Eq, Debug)]
pub struct Opening {
    pub permits: u8, // links, K
    pub parties: u8, // n
    pub named: bool, // opening 02: each permit is a radio
    pub radios: [u8; 32], // the first K of them, of such an opening
    pub kinds: [u8; 32], // of the parties; the built-in table if it did not give 32
    pub counted: bool, // it gave 32 kinds, or none
}

fn figures_at(o: Opening) -> Figures
    ensures { result ≡ figures_at o }
{
    Figures {
        counter: i32::from(o.permits),
        issued: 0,
        resumed: 0,
        begun: 0,
    }
}

// All radios are stored, in the opening's order.
fn pool_at(o: Opening) -> Pool
    ensures { result ≡ pool_at o }
{
    let radios = o.radios;
    Pool {
        hands: [0; 32],
        laid: [0; 256],
        store: radios,
        first: 0,
        stored: u32::from(o.permits),
    }
}

impl Hub {
    // The record of a hub that was just opened; nothing is checked here.
    pub fn open(o: Opening) -> Hub
        ensures { result ≡ fresh o }
    {
        Hub {
            places: [empty_seat(); 256],
            slots: [free_slot(); 32],
            control: Control {
                opening: o,
                figures: figures_at(o),
                oldest: 0,
                pool: pool_at(o),
            },
        }
    }
}
