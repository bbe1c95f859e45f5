// How a reply is written: a line of text, or seven bytes.

#![tactic(auto)]

pub mod text; // an answer as a line
pub mod form; // text or bytes
