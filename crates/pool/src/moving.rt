// The way of a radio. The answer of a call alone says it, so that it is made after the call.

ghost use Rattle.std.specs.Prelude.{◌≡◌, ◌≤◌};
ghost use Rattle.hub.specs.Answers.{printed};
ghost use Rattle.hub.specs.Radios.{fetch, hand_of, hand_to, laid_at, lay_at, moved, put_back};

use hub::answers::Answer;
use hub::record::{Hub, Pool};

// The radio with a party; 0 past the 32.
#[tactic(auto, unfolding(hub::specs::Radios::hand_of))]
pub fn hand_of(pool: Pool, party: u8) -> u8
    ensures { result ≡ hand_of pool party }
{
    pool.hands.get(party as usize).copied().unwrap_or(0)
}

#[tactic(auto, unfolding(hub::specs::Radios::laid_at))]
fn laid_at(pool: Pool, t: u32) -> u8
    ensures { result ≡ laid_at pool t }
{
    pool.laid[(t % Hub::PLACES) as usize]
}

// A test and no `get_mut`: with it the proof stops where a slot is found, since what its borrow leaves behind has no name to cite.
fn hand_to(q: u32, radio: u8, mut pool: Pool) -> Pool
    ensures { result ≡ hand_to q radio pool }
{
    if q < 32 {
        pool.hands[q as usize] = radio;
    }
    pool
}

fn lay_at(t: u32, radio: u8, mut pool: Pool) -> Pool
    ensures { result ≡ lay_at t radio pool }
{
    pool.laid[(t % Hub::PLACES) as usize] = radio;
    pool
}

// To the store's end.
fn put_back(radio: u8, mut pool: Pool) -> Pool
    requires { pool.stored ≤ 32 }
    ensures { result ≡ put_back radio pool }
{
    pool.store[((pool.first % 32 + pool.stored) % 32) as usize] = radio;
    pool.stored += 1;
    pool
}

// The store's first, to a party.
fn fetched(party: u8, pool: Pool) -> Pool
    ensures { result ≡ fetch party pool }
{
    let first = pool.first % 32;
    Pool {
        first: (first + 1) % 32,
        stored: pool.stored.saturating_sub(1),
        ..hand_to(party as u32, pool.store[first as usize], pool)
    }
}

pub fn move_radio(answer: Answer, party: u8, pool: Pool) -> Pool
    requires { pool.stored ≤ 32 }
    ensures { result ≡ moved (printed answer) party pool }
{
    match answer {
        Answer::Fetched => fetched(party, pool),
        Answer::Stored | Answer::ResumeRefused(_) => put_back(hand_of(pool, party), pool),
        Answer::LeftPermit(t) | Answer::Delegated(t) => lay_at(t, hand_of(pool, party), pool),
        Answer::TookPermit(t) | Answer::PassedOn(t) => {
            hand_to(party as u32, laid_at(pool, t), pool)
        }
        Answer::Woke(q, _) => hand_to(q, hand_of(pool, party), pool),
        Answer::DroppedPermit(t) => put_back(laid_at(pool, t), pool),
        _ => pool,
    }
}
