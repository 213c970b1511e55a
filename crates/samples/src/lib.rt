// What calls give and lines print, from texts, by computation: see proofs/Samples.antt and the files beside it.
#![tactic(auto)]
