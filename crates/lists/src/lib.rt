// Definitions on lists and tests: see specs/.
#![tactic(auto)]
