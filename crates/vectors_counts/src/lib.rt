// Document 02's probe counts: tables of roundings, of count answers and of calls, with one theorem over each. No code.
#![tactic(auto)]
