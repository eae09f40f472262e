// Theorems only: which levels of a plan the boards use, on every plan; 65,536 positions need all fifteen.
#![tactic(auto)]
