// A vote as a machine: a board's state is its party, and what every party rests on. Definitions and laws, no code.
#![tactic(auto)]
