// The levels and the fourteen rules, written a second time from document 01's sentences over plain
// tables. Of it only is proved that it is safe and ends.
#![tactic(auto)]

pub mod effect;
pub mod grading;
pub mod heard;
pub mod levels;
pub mod moving;
pub mod rules;
pub mod running;
