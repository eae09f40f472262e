// Document 02's reading of a pair: a table of readings with one theorem over it. No code.
#![tactic(auto)]
