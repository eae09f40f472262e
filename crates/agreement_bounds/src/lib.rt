// Theorems only: document 01's bounds on rules and bytes, said of what the calls report and of whole histories.
#![tactic(auto)]
