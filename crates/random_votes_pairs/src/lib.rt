// Two votes that run side by side, whose boards are read as pairs: on both implementations, compared, and held to document 02's claim of pairs.
#![tactic(auto)]

pub mod choose;
pub mod claim;
pub mod read;
pub mod results;
