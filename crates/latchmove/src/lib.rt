// One call of a latch between its check and its record: what the party sees, and what the table
// decides. Where a latch is as a hub (the ring, its tidying) the hub's functions serve both.

#![tactic(auto)]

pub mod sight; // what a call looks at
pub mod room; // refusal 7
pub mod effect; // what the table decides
