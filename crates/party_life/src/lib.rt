// Lives of a party: the records of its accepted calls from set-up on. Definitions and laws, no code.
#![tactic(auto)]
