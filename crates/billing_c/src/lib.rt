// `billing` for C and Rust: `bill_shares` under its own name, with its promises.

#![tactic(auto)]

ghost use Rattle.std.specs.Prelude.{◌≡◌};
ghost use Rattle.billing.specs.Bill.{bill_bytes, bill_code};

// The shares of parties 0 to n−1, four bytes each. Gives the answer's code, or 255 if it is handed no
// such buffer; unless it gives 0 nothing is written.
#[unsafe(no_mangle)]
pub extern "C" fn bill_shares(parties: u8, fee: u32, lines: &[u8], shares: &mut [u8]) -> u8
    ensures { (result ≡ bill_code parties fee lines.now shares.old)
        × (shares.new ≡ bill_bytes parties fee lines.now shares.old) }
{
    billing::bill_shares(parties, fee, lines, shares)
}
