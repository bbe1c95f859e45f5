// One line of a schedule: what it asks.

#![tactic(auto)]

pub mod hex; // hexadecimal digits
pub mod values; // a call by a table of digits
pub mod openings; // an opening as a frame
pub mod request; // what a line asks
