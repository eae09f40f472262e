// Demand 3: histories of sound boards, and the theorem about every one of them. Definitions and laws, no code.
#![tactic(auto)]
