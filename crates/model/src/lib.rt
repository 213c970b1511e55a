// Definitions of queries, grants, views, routes and answers: see specs/.
#![tactic(auto)]
