// Which clauses of demand 3 are needed: histories that meet all the others, and after which it fails. Definitions and laws, no code.
#![tactic(auto)]
