// Definitions of the lines' texts: see specs/.
#![tactic(auto)]
