// Demand 3 by probe counts: theorems only.
#![tactic(auto)]
