// How many different messages a sound board makes in a vote, and at which levels. Theorems, no code.
#![tactic(auto)]
