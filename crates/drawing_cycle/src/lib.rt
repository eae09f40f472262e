// The cycle of a drawing's plan, edge by edge as drawn: laws only.
#![tactic(auto)]
