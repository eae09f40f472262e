// From the levels' results to the answers: they are near one another and between the inputs, and they come. Definitions and laws, no code.
#![tactic(auto)]
