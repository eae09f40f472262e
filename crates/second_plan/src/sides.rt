// Sides of a component, of a range or of a tree.
use crate::table::Table;
use crate::{paths, trees};

// The next level's component becomes a side of this one's.
pub fn enter(t: &mut Table, level: usize, side: usize) {
    if t.is_range() {
        paths::enter_side(t, level, side);
    } else {
        trees::enter_side(t, level, side);
    }
}
