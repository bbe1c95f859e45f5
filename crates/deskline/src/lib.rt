// How the desk program's answers are printed, a line each.

#![tactic(auto)]

mod digits; // words and numbers as characters
pub mod text; // an answer as a line
