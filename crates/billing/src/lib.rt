// The monthly bill: n parties share a fee in whole cents by the links (permits) that they got,
// counted from the hub's answer lines. The cents left over go to the largest remainders.

#![tactic(auto)]

ghost use Rattle.std.specs.Prelude.{ℕ, ◌*◌, ◌+◌, ◌<◌, ◌≤◌, ◌≡◌, cond, get_or, length, ltb};
ghost use Rattle.billing.specs.Bill.{answer_to, bill_bytes, bill_code, code_of, in_bytes, number_of, written_at};
ghost use Rattle.billing.specs.Counting.{grants_of, receiver_of, sum, table};
ghost use Rattle.billing.specs.Portions.{cents_at, remainder_at};
ghost use Rattle.billing.specs.Sharing.{Billable, granted, left_over, precedes, rank, remainder};
ghost use Rattle.billing.specs.Sharing.{rounded_down, share, up_to, weighed};

use openhub::up_to_32;

const MOST_CENTS: u32 = 1000000;

const MOST_LINES: usize = 100000000;

const NO_BUFFER: u8 = 255; // answers a buffer that has not four bytes for each party

// Why a fee is not shared, by its number: the first that applies.
#[derive(Clone, Copy, PartialEq, Eq, Debug)]
pub enum Refusal {
    BadParties = 3, // n is not 1 to 32
    TooMuch = 22, // the fee is above 1,000,000 cents, or the lines exceed 100,000,000
}

impl Refusal {
    // Its number.
    pub fn code(self) -> u8
        ensures { result ≡ number_of self }
    {
        self as u8
    }
}

// What is shared, and by what.
#[derive(Clone, Copy)]
pub struct Terms {
    pub parties: u8, // n
    pub fee: u32, // in cents
    pub grants: [u64; 32], // the links that each party got
}

// A party's exact portion, rounded down, and what remains of it.
#[derive(Clone, Copy)]
struct Portion {
    cents: u32,
    remainder: u32,
}

// The portions of all parties, and the cents left over.
struct Portions {
    each: [Portion; 32],
    left: u32,
}

// The party that a line gives a link, if it gives one to a party below 32.
#[tactic(auto, unfolding(crate::specs::Counting::receiver_of))]
fn receiver(code: u8, party: u8, woken: u8) -> Option<u8>
    ensures { let p = receiver_of code party woken in result ≡ cond (ltb p 32) (Some p) None }
{
    let receiver = match code {
        0x21 | 0x25 => party,
        0x2A => woken,
        _ => return None,
    };
    (receiver < 32).then_some(receiver)
}

// The links that each party got, counted from answer lines of seven bytes each.
pub fn count_grants(lines: &[u8]) -> [u64; 32]
    ensures { result ≡ table 32 (grants_of lines.now) }
{
    let mut grants = [0u64; 32];
    let (whole, _) = lines.as_chunks::<7>();
    for line in whole {
        if let Some(party) = receiver(line[0], line[1], line[2]) {
            grants[party as usize] += 1;
        }
    }
    grants
}

// What a party's share goes by.
#[tactic(auto, unfolding(crate::specs::Sharing::weighed))]
fn weight(all: u64, links: u64) -> u64
    ensures { result ≡ weighed all links }
{
    if all == 0 { 1 } else { links }
}

// Party q, with remainder r, comes before party p, with remainder s.
#[tactic(auto, unfolding(crate::specs::Sharing::precedes))]
fn comes_before(r: u32, q: usize, s: u32, p: usize) -> bool
    ensures { result ≡ precedes r q s p }
{
    s < r || r == s && q < p
}

// How many of the parties come before party p.
fn rank(portions: &[Portion], p: usize) -> u32
    requires { (p < length portions.now) × (length portions.now ≤ 32) }
    ensures { result ≡ rank (remainder_at portions.now) (length portions.now) p }
{
    let own = portions[p].remainder;
    // added up: by filter and count a bill of 32 parties took 19,940 instructions where a loop took 12,806
    let mut before = 0;
    for (q, portion) in portions.iter().enumerate() {
        before += u32::from(comes_before(portion.remainder, q, own, p));
    }
    before
}

// `Billable` is asked of each method and is no invariant of `Terms`: `EveryBill` speaks of any terms.
impl Terms {
    // The links that the n parties got together.
    fn total_grants(&self) -> u64
        requires { Billable self.now }
        ensures { result ≡ sum (granted self.now) self.now.parties }
    {
        self.grants[..self.parties as usize].iter().sum()
    }

    // The exact portions.
    fn divide(&self) -> Portions
        requires { Billable self.now }
        ensures cents { (p : ℕ) → p < self.now.parties → cents_at result.each p ≡ rounded_down self.now p }
        ensures remainders { (p : ℕ) → p < self.now.parties → remainder_at result.each p ≡ remainder self.now p }
        ensures left { result.left ≡ left_over self.now }
    {
        let all = self.total_grants();
        let whole = if all == 0 { self.parties as u64 } else { all };
        let mut each = [Portion {
            cents: 0,
            remainder: 0,
        }; 32];
        let mut left = self.fee;
        for p in 0..self.parties as usize {
            let exact = self.fee as u64 * weight(all, self.grants[p]);
            let down = (exact / whole) as u32;
            each[p] = Portion {
                cents: down,
                remainder: (exact % whole) as u32,
            };
            left -= down;
        }
        Portions { each, left }
    }

    // The shares, of terms that are not refused: a cent more for those who come first.
    fn apportion(&self) -> [u32; 32]
        requires { Billable self.now }
        ensures { result ≡ up_to self.now.parties (share self.now) }
    {
        let Portions { each, left } = self.divide();
        let portions = &each[..self.parties as usize];
        let mut shares = [0u32; 32];
        for (p, portion) in portions.iter().enumerate() {
            shares[p] = portion.cents + u32::from(rank(portions, p) < left);
        }
        shares
    }
}

// The bill of n parties for a fee in cents, from answer lines of seven bytes each: the shares in
// cents, 0 from n up (fixed memory, so that there are 32 of them).
#[tactic(auto, unfolding(crate::specs::Bill::answer_to))]
pub fn share_fee(parties: u8, fee: u32, lines: &[u8]) -> Result<[u32; 32], Refusal>
    ensures { result ≡ answer_to parties fee lines.now }
{
    if !up_to_32(parties) {
        return Err(Refusal::BadParties);
    }
    if MOST_CENTS < fee || MOST_LINES < lines.len() / 7 {
        return Err(Refusal::TooMuch);
    }
    let grants = count_grants(lines);
    let terms = Terms {
        parties,
        fee,
        grants,
    };
    Ok(terms.apportion())
}

// An answer as one byte: 0, or the refusal's number.
pub fn code(answer: Result<[u32; 32], Refusal>) -> u8
    ensures { result ≡ code_of answer }
{
    match answer {
        Ok(_) => 0,
        Err(why) => why.code(),
    }
}

// A number in four bytes, high byte first.
fn put_number(out: &mut [u8], at: usize, n: u32)
    requires { at + 4 ≤ length out.old }
    ensures { out.new ≡ written_at at out.old n }
{
    out[at..at + 4].copy_from_slice(&n.to_be_bytes());
}

fn put_shares(out: &mut [u8], shares: &[u32])
    requires { length out.old ≡ 4 * length shares.now }
    ensures { out.new ≡ in_bytes (λ p. get_or shares.now p 0) (length shares.now) }
{
    for (p, share) in shares.iter().enumerate() {
        put_number(out, 4 * p, *share);
    }
}

// For C and Rust: the shares of parties 0 to n−1, four bytes each. Gives the answer's code, or 255
// if it is handed no such buffer; unless it gives 0 nothing is written.
#[tactic(auto, unfolding(crate::specs::Bill::answer_to, crate::specs::Bill::bill_code, crate::specs::Bill::bill_bytes))]
pub fn bill_shares(parties: u8, fee: u32, lines: &[u8], shares: &mut [u8]) -> u8
    ensures { (result ≡ bill_code parties fee lines.now shares.old)
        × (shares.new ≡ bill_bytes parties fee lines.now shares.old) }
{
    let answer = share_fee(parties, fee, lines);
    let Ok(cents) = answer else {
        return code(answer);
    };
    let n = parties as usize;
    if shares.len() != 4 * n {
        return NO_BUFFER;
    }
    put_shares(shares, &cents[..n]);
    0
}
