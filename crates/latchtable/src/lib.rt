// What a step of a latch does, decided from the few values that it looks at: the rows of the step
// table. Each function is equal to a definition of the crate latch, laid out flat.

#![tactic(auto)]

pub mod rows; // the step table
