// Definitions of the calls and of their refusals: see specs/.
#![tactic(auto)]
