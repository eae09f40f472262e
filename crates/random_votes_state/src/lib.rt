// What random votes are kept in: pseudo-random numbers, plans, messages and those handed over, seats, calls and what they gave, votes, and the counts of a run.
#![tactic(auto)]

pub mod both;
pub mod call;
pub mod message;
pub mod outcome;
pub mod plan;
pub mod pool;
pub mod random;
pub mod seats;
pub mod span;
pub mod totals;
pub mod varint;
pub mod vote;
