// How many levels of a plan send messages. Definitions and laws for every plan, no code.
#![tactic(auto)]
