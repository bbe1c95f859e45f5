// The desk screen beside the hub: there is no code here, only what is claimed of the two, and why it holds.

#![tactic(auto)]
