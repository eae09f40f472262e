// Components of a plan: what crate tree proves of components of a tree, said of a plan and its components. Laws, no code.
#![tactic(auto)]
