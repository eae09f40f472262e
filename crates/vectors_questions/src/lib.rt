// Document 01's questions at the door, document 02's broken messages and what its restore hands over: a table of each with one theorem over it. No code.
#![tactic(auto)]
