// A whole input to a whole output, in pieces of any size.

#![tactic(auto)]

pub mod session; // a run over pieces
