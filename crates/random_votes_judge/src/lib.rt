// What a call did is compared, counted, kept, and held to demand 3.
#![tactic(auto)]

pub mod broken;
pub mod demand;
pub mod judge;
pub mod records;
