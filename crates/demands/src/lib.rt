// No code: what the contracts of the code promise together. See proofs/: Defined, Answered (demand 2), Interference (demand 3), Lent (demand 1, 12).
#![tactic(auto)]
