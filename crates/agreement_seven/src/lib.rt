// Histories that show the bound on messages to be reached, and its premise on faulty boards to be needed. Theorems, no code.
#![tactic(auto)]
