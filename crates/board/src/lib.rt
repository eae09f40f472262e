// A board's calls: set-up, start, take, reading the answer, restore, reading a pair, start by count, reading a count. None asks anything of the caller.
#![tactic(auto)]

pub use board_calls::{Called, Restored};
pub use board_counts::{CountStarted, read_count, start_count};
pub use board_door::{start, take};
pub use board_ends::{read_answer, set_up};
pub use board_pair::read_pair;
pub use board_restore::restore;
