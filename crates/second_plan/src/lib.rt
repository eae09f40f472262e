// The table that a board keeps, and plans read into it, written a second time from document 01's
// sentences. Of it only is proved that it is safe and ends, and that a side is read as it was set.
#![tactic(auto)]

pub mod bits;
pub mod cells;
pub mod paths;
pub mod plans;
pub mod question;
pub mod sides;
pub mod table;
pub mod trees;
