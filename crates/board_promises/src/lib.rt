// What the calls promise, beside their contracts: which records pass question 19, that a refusal changes nothing, what the outgoing bytes are, what a restore
// hands over. No code.
#![tactic(auto)]
