// The kind of each party: the built-in table, and what is asked of a house's own.

ghost use Rattle.std.specs.Prelude.{◌≡◌};
ghost use Rattle.hub.specs.Kinds.{built_in, has_desk, kind_in, kinds_known};

use hub::kinds::Kind;

pub fn built_in() -> [u8; 32]
    ensures { result ≡ built_in }
{
    let mut kinds = [Kind::Desk as u8; 32];
    kinds[8..28].fill(Kind::Door as u8);
    kinds[28..30].fill(Kind::Replacement as u8);
    kinds[30..32].fill(Kind::BatteryRound as u8);
    kinds
}

// The kind of a party, a byte of the record, which may be any (`kind_in`); past the table, a desk.
#[tactic(auto, unfolding(hub::specs::Kinds::kind_in))]
pub fn kind_in(kinds: [u8; 32], party: u8) -> u8
    ensures { result ≡ kind_in kinds party }
{
    kinds
        .get(usize::from(party))
        .copied()
        .unwrap_or(Kind::Desk as u8)
}

// Is none above 3? Every one is asked, so that the compiler asks many at once.
pub fn kinds_known(kinds: [u8; 32]) -> bool
    ensures { result ≡ kinds_known kinds }
{
    kinds.iter().fold(
        true,
        |known, kind| known & (*kind <= Kind::BatteryRound as u8),
    )
}

// Is one of them 0?
#[tactic(auto, unfolding(hub::specs::Kinds::has_desk))]
pub fn has_desk(kinds: [u8; 32]) -> bool
    ensures { result ≡ has_desk kinds }
{
    kinds.contains(&(Kind::Desk as u8))
}
