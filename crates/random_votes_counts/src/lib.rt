// Votes by counts: starts and readings drawn, read on both implementations, compared, and held to document 02's claim of count answers.
#![tactic(auto)]

pub mod choose;
pub mod claim;
pub mod read;
pub mod results;
pub mod start;
