// The step of a party, decided from the few values that it looks at. Each function is equal to a definition of the
// crate hub, laid out flat.

#![tactic(auto)]

pub mod rows; // the step table
