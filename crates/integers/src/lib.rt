// Signed numbers: their order and distances, and what the machine computes of them. Laws only.
#![tactic(auto)]
