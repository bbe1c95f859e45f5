// Lines before a hub is open: what a session does with them, up to the one that opens it.

#![tactic(auto)]

pub mod opening;
