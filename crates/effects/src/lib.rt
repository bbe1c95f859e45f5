// What a call does, decided from the few values that it looks at: every call but the step, and what the rows of the
// step table are made of. Each function is equal to a definition of the crate hub, laid out flat.

#![tactic(auto)]

pub mod effect; // a decision as it is stored
pub mod figures; // the figures with one of them changed
pub mod counter; // the side of zero that the counter is on
pub mod changes; // what decisions are made of
pub mod others; // ask, give up, give back, which radio
