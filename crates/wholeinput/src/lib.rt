// A whole input to a whole output, in the caller's buffers.

#![tactic(auto)]

pub mod whole;
