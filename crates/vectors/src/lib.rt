// Document 01's sums to check by hand, rows for what its rules and plans choose, and document 02's table of lengths: tables with one theorem over each. No code.
#![tactic(auto)]
