// What the trial of changed records draws at random: settings, plans, calls and changes.
#![tactic(auto)]

pub mod change;
pub mod lead;
mod levels;
pub mod plans;
mod rows;
pub mod vote;
