// What lists of calls leave: definitions and theorems only.
#![tactic(auto)]
