// The routes of a query by their grants: definitions and theorems alone.
#![tactic(auto)]
