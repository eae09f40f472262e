// Two votes read as a pair: what demand 3 comes to. Theorems only.
#![tactic(auto)]
