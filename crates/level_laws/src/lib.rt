// What level records rest on that came about by the rules. Laws, no code.
#![tactic(auto)]
