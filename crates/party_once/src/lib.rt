// No board makes a message twice in one life. A theorem, no code.
#![tactic(auto)]
