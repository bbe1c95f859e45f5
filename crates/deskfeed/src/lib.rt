// A whole input of the desk program, in pieces of any size.

#![tactic(auto)]

pub mod session; // a run over pieces
