// The calls of a latch, record in and record out, on any record and any party byte.

#![tactic(auto)]

pub mod calls; // the calls
