// Graded consensus at one level: what the sound boards' states there have in common. Definitions and laws, no code.
#![tactic(auto)]
