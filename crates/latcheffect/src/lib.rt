// What a call of a latch comes to, laid out flat, and the changes that the rows of its step table are made
// of. Each function is equal to a definition of the crate latch.

#![tactic(auto)]

pub mod effect; // a decision as it is stored
pub mod slots; // what is kept of a party
pub mod changes; // what the rows are made of
