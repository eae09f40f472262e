// Theorems only: document 01's bounds on rules, messages and bytes, for a run of rules and for a party's whole life.
#![tactic(auto)]
