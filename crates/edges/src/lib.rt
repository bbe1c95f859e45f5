// The paper's edges: there is no code here, only their table, and that the definitions of `hub` meet it.

#![tactic(auto)]
