// What holds of every schedule of a latch: there is no code here, only what is claimed, and why it holds.

#![tactic(auto)]
