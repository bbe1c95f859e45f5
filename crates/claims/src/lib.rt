// Claims of calls and openings: there is no code here, only what is claimed, and why it holds.

#![tactic(auto)]
