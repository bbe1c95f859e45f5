// Document 000's own listings: there is no code here, only their machine, that every schedule of the hub is an
// execution of it, and that every execution of it is one of the unbounded queue.

#![tactic(auto)]
