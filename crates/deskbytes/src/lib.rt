// No code: what `hub_operate` writes is what the desk screen tells. See specs/ and proofs/.

#![tactic(auto)]
