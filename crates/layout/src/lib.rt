// A record of a hub as 1881 bytes, and back, for the program that makes a call on any record;
// tests/README.md lays them out.

#![tactic(auto)]

mod figures; // the numbers in front
mod parties; // phases and marks

ghost use Rattle.std.specs.Prelude.{◌≡◌, length};
ghost use Rattle.layout.specs.Read.{record_in};
ghost use Rattle.layout.specs.Written.{record_bytes};

use cells::cell::{place_bytes, places_at};
use cells::number::{number_at, put_bytes_at};
use figures::{figure_bytes, figures_of};
use hub::record::{Control, Hub};
use parties::{marks_of, phase_bytes, slots_of};
use radiobytes::{opening_of, pool_of, radio_bytes};

pub fn record_of(bytes: &[u8]) -> Hub
    requires { length bytes.now ≡ 1881 }
    ensures { result ≡ record_in bytes.now }
{
    Hub {
        places: places_at(bytes, 22),
        slots: slots_of(bytes),
        control: Control {
            opening: opening_of(bytes),
            figures: figures_of(bytes),
            oldest: number_at(bytes, 18),
            pool: pool_of(bytes),
        },
    }
}

pub fn record_bytes(hub: Hub) -> [u8; 1881]
    ensures { result ≡ record_bytes hub }
{
    let radios = radio_bytes(hub.control.opening, hub.slots, hub.places, hub.control.pool);
    let mut out = [0u8; 1881];
    put_bytes_at(&mut out, 0, &figure_bytes(hub));
    put_bytes_at(&mut out, 22, &place_bytes(hub.places));
    put_bytes_at(&mut out, 1302, &phase_bytes(hub.slots));
    put_bytes_at(&mut out, 1462, &radios);
    put_bytes_at(&mut out, 1817, &marks_of(hub.slots));
    put_bytes_at(&mut out, 1849, &hub.control.opening.kinds);
    out
}
