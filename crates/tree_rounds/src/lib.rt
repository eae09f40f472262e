// A tree taken apart round by round, each component losing its centre: definitions and laws for every size, no code.
#![tactic(auto)]
