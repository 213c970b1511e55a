// What the definitions promise: see proofs/Claims.antt.
#![tactic(auto)]
