// The answers of a vote's sound boards, after every history: they are near one another and between the inputs, and they come. Laws, no code.
#![tactic(auto)]
