// The desk screen: a plain line of those who hold and those who wait, with ask, give up and give back as
// single moves. It stands beside the hub and shares its answers and kinds. Here are its line and its definitions;
// the code is in screenfit (the check), screenmove (the moves) and screensteps (what the hub does for a move).

#![tactic(auto)]

pub mod record; // the line, a clerk's operations, and what one leaves

pub use record::{Line, Moved, Operation, UnknownOperation};
