// Level records as the boards of graded consensus: what a record rests on and what it has done at rest, in the words of crate graded_consensus. Definitions and laws, no code.
#![tactic(auto)]
