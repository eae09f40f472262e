// The next call of a vote: random steps of boards and of the bench, and the last deliveries.
#![tactic(auto)]

pub mod bench;
pub mod choose;
pub mod deliver;
