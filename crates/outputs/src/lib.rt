// What the program prints, over schedules and over every input. There is no code here: the claims are in specs/, and
// proofs/ has why they hold.

#![tactic(auto)]
