// Laws of the calls, for the proofs of the functions and of what the calls promise. No code.
#![tactic(auto)]
