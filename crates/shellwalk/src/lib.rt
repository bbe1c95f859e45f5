// Why a shell over a `&mut Hub` leaves the record that a function over its fields answers: there is no code here, only
// the walk that the proofs of the shells share.

#![tactic(auto)]
