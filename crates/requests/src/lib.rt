// Requests of an open hub answered on a whole record: its parts are handed to the loop of `batch`, and the record made of
// those that are left.

#![tactic(auto)]

ghost use Rattle.std.specs.Prelude.{◌≡◌, ◌*◌, ◌≤◌, length};
ghost use Rattle.encoding.specs.Form.{reply_size};
ghost use Rattle.line.specs.Program.{after};
ghost use Rattle.batch.specs.Batch.{Reachable, replied, requests_in};

use batch::answer_in_turn;
use encoding::pairs;
use hub::record::{Control, Hub};
use ring::PlaceRing;
use writer::form::Form;

// Answers the first `count` requests, of two bytes each, in a form.
pub fn answer_requests<F: Form>(hub: Hub, requests: &[u8], count: usize, out: &mut [u8]) -> Hub
    requires reachable { Reachable hub }
    requires count_in_bounds { 2 * count ≤ length requests.now }
    requires count_in_bounds_2 { reply_size F.form * count ≤ length out.old }
    ensures { (result ≡ after hub (requests_in count requests.now))
        × (out.new
        ≡ replied F.form hub count requests.now out.old) }
{
    // an array is moved by a variable: the check covers no literal with a field's own
    let places = hub.places;
    let ring = PlaceRing {
        resumed: hub.control.figures.resumed,
        oldest: hub.control.oldest,
        places,
    };
    let left = answer_in_turn::<F>(
        hub.control.opening,
        hub.control.figures,
        ring,
        hub.slots,
        hub.control.pool,
        &pairs::table(),
        requests,
        count,
        out,
    );
    let places = left.ring.places;
    let slots = left.slots;
    Hub {
        places,
        slots,
        control: Control {
            opening: hub.control.opening,
            figures: left.figures,
            oldest: left.ring.oldest,
            pool: left.pool,
        },
    }
}
