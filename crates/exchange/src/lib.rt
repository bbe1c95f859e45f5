// One request of the loop in the crate batch, in the parts that need no record: what it asks, whether it is admitted,
// what a call comes to, and how that is written.

#![tactic(auto)]

pub mod admission; // what is answered before the table is asked
pub mod decision; // what an admitted call does
pub mod wire; // requests and replies as bytes
