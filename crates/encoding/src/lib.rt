// An answer as bytes, and bytes as characters.

#![tactic(auto)]

pub mod answer; // an answer as bytes
pub mod pairs; // the characters of each byte
pub mod signed; // the counter as four bytes
