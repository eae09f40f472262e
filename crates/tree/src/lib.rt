// Trees given by their edges: components, centres, neighbours and sides. Definitions and laws for every size, no code.
#![tactic(auto)]
