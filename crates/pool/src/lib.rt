// The radios of a hub that has some: where each of them is.

#![tactic(auto)]

pub mod moving; // a radio goes from one keeper to another
pub mod check; // are the radios those of the opening, each once?
