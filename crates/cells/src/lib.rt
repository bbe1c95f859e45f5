// What the records of a hub and of a latch have alike, as bytes and back: numbers, places and phases.

#![tactic(auto)]

pub mod number; // numbers of four bytes, and bytes in their place
pub mod cell; // places, 256 cells of five bytes
pub mod phase; // a phase by its name, its ticket and its mark
