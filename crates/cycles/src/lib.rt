// The cycle that a rejected edge closes: which edges are on it, and that no other set in which some edge joins ends already joined is as small. Definitions and laws for every size, no code.
#![tactic(auto)]
