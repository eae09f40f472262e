// Histories that meet demand 3's premises. Definitions and laws, no code.
#![tactic(auto)]
