// One call between its check and its record: what the party sees, what the table decides, laid out
// flat, and what is left to tidy. Every way of calling the hub goes through here; how the record is
// held is theirs.

#![tactic(auto)]

pub mod sight; // what a call looks at
pub mod effect; // what the table decides
pub mod room; // refusal 7
pub mod tidy; // the tests of the tidying
