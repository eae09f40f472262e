// A range and the same path given as a tree numbered along it: definitions and laws, no code.
#![tactic(auto)]
