// Calls of a seat with what is lent to them, what faulty boards say, what every board must refuse, cuts, and damaged journals.
#![tactic(auto)]

pub mod bad;
pub mod calls;
pub mod cuts;
pub mod damage;
pub mod lies;
pub mod spoil;
