// Opening a hub: what an opening is answered, refusals 2, 3 and 14 to 17 in their order, and the record that it makes.

#![tactic(auto)]

pub mod kinds; // the kind of each party

ghost use Rattle.std.specs.Prelude.{◌≡◌, ◌≤◌, take};
ghost use Rattle.hub.specs.Answers.{printed};
ghost use Rattle.hub.specs.Basics.{up_to32};
ghost use Rattle.hub.specs.Fits.{kinds_fit};
ghost use Rattle.hub.specs.Opening.{answered, kind_tests, opened, opening, opening_if, radios_differ, sized, unless_refused};
ghost use Rattle.hub.specs.Radios.{differ};

use hub::answers::Refusal;
use hub::opening::Opening;
use hub::record::Hub;
use kinds::{built_in, has_desk, kinds_known};

// Opening 01: K and n.
pub fn sized(permits: u8, parties: u8) -> Opening
    ensures { result ≡ sized permits parties }
{
    Opening {
        permits,
        parties,
        named: false,
        radios: [0; 32],
        kinds: built_in(),
        counted: true,
    }
}

// 1 to 32, as K and n are.
pub fn up_to_32(n: u8) -> bool
    ensures { result ≡ up_to32 n }
{
    1 <= n && n <= 32
}

// Are the first `count` radios all different? Each is marked when it is met.
fn differ(radios: [u8; 32], count: usize) -> bool
    requires { count ≤ 32 }
    ensures { result ≡ differ (take count radios) }
{
    let mut met = [false; 256];
    for radio in &radios[..count] {
        let radio = usize::from(*radio);
        if met[radio] {
            return false;
        }
        met[radio] = true;
    }
    true
}

// Are no two radios of an opening alike?
pub fn radios_differ(o: Opening) -> bool
    requires { o.permits ≤ 32 }
    ensures { result ≡ radios_differ o }
{
    !o.named || differ(o.radios, usize::from(o.permits))
}

// Do the kinds of a record fit?
#[tactic(auto, unfolding(hub::specs::Fits::kinds_fit, hub::specs::Basics::all_of))]
pub fn kinds_fit(o: Opening) -> bool
    ensures { result ≡ kinds_fit o }
{
    o.counted && kinds_known(o.kinds) && has_desk(o.kinds)
}

// What the kinds of an opening are refused by: 15, 16 or 17.
#[tactic(auto, unfolding(hub::specs::Opening::opening_if))]
fn check_kinds(o: Opening) -> Result<(), Refusal>
    ensures { result ≡ unless_refused tt (opening_if (kind_tests o) o).answer }
{
    if !o.counted {
        return Err(Refusal::MiscountedKinds);
    }
    if !kinds_known(o.kinds) {
        return Err(Refusal::UnknownKind);
    }
    if !has_desk(o.kinds) {
        return Err(Refusal::NoDesk);
    }
    Ok(())
}

// What an opening is refused by; one that is not is answered 1F.
#[tactic(auto, unfolding(hub::specs::Opening::opening_if))]
pub fn check_opening(o: Opening) -> Result<(), Refusal>
    ensures value { result ≡ unless_refused tt (opening o).answer }
    ensures answer { answered result ≡ (opening o).answer }
{
    if !up_to_32(o.permits) {
        return Err(Refusal::BadPermits);
    }
    if !up_to_32(o.parties) {
        return Err(Refusal::BadParties);
    }
    if !radios_differ(o) {
        return Err(Refusal::SameRadios);
    }
    check_kinds(o)
}

// Opens a hub.
pub fn open_hub(o: Opening) -> Result<Hub, Refusal>
    ensures value { result ≡ unless_refused (opening o).hub (opening o).answer }
    ensures outcome { opened result ≡ opening o }
    ensures printed { printed (opened result).answer ≡ printed (opening o).answer }
{
    check_opening(o)?;
    Ok(Hub::open(o))
}
