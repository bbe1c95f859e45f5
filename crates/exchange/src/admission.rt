// What is answered before the table is asked: 12, 13 for an opening, 4.

ghost use Rattle.std.specs.Prelude.{◌≡◌};
ghost use Rattle.encoding.specs.Frame.{op_of};
ghost use Rattle.exchange.specs.Admission.{admission_of, code_of, party_of};

use hub::moves::Op;
use line::request::OPENING;

// Why a request is answered without the table.
#[derive(Clone, Copy, Debug, PartialEq, Eq)]
pub enum Unasked {
    NoSuchParty(u8), // 4
    Malformed, // 12
    AlreadyOpen, // 13
}

impl Unasked {
    // Whom the reply names.
    pub fn party(self) -> u8
        ensures { result ≡ party_of self }
    {
        match self {
            Unasked::NoSuchParty(party) => party,
            _ => 0xFF,
        }
    }

    pub fn code(self) -> u8
        ensures { result ≡ code_of self }
    {
        match self {
            Unasked::NoSuchParty(_) => 4,
            Unasked::Malformed => 12,
            Unasked::AlreadyOpen => 13,
        }
    }
}

// Is a request a call of a party that there is, for the table to answer? As a `Result<Call, Unasked>`, with the operation
// read here, a line of `schedule` costs 155, 149, 137 instructions in place of 150, 144, 131.
#[tactic(auto, unfolding(crate::specs::Admission::admission_of))]
pub fn admit(code: u8, party: u8, parties: u8) -> Result<(), Unasked>
    ensures { result ≡ admission_of code party parties }
{
    if !matches!(code, 0x10..=0x14) {
        return Err(if code == OPENING {
            Unasked::AlreadyOpen
        } else {
            Unasked::Malformed
        });
    }
    if party < parties {
        Ok(())
    } else {
        Err(Unasked::NoSuchParty(party))
    }
}

// The operation of an admitted code; which radio is what is left of the five.
pub fn op_of(code: u8) -> Op
    ensures { result ≡ op_of code }
{
    match code {
        0x10 => Op::Acquire,
        0x11 => Op::Step,
        0x12 => Op::Cancel,
        0x13 => Op::Release,
        _ => Op::Radio,
    }
}
