// What a call of a latch does: the step table, a phase after the other, and the other calls. Each
// function is equal to a definition of the crate latch, laid out flat.

#![tactic(auto)]

mod steps; // the step table
mod others; // await, give up, count down
pub mod calls; // any call
