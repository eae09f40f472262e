// Votes are drawn: settings, plans, inputs, and how boards and the wire behave.
#![tactic(auto)]

pub mod draw;
pub mod plans;
