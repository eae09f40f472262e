// Theorems only: from every history that document 01 allows, further steps lead to one whose delivery is complete.
#![tactic(auto)]
