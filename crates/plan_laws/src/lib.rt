// Theorems about plans: what their edges are, that the test passes exactly what reading gives, the readings, and what bytes draw.
#![tactic(auto)]
