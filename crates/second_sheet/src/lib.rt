// A record as plain numbers, for question 19 of the second implementation.
#![tactic(auto)]

pub mod sheet;
