// Entering levels.
use crate::effect::Entry;
use second_plan::table::Table;
use second_plan::trees::Distances;
use second_plan::{paths, sides, table, trees};

// A component of one or two positions: the board's position is its output.
fn close(t: &mut Table, level: usize, position: usize) {
    t.set(level, table::SMALL, 1);
    t.put(level, table::OUTPUT, Some(position));
}

// A level's component gets its centre and sides; how many sides it has.
// second_levels opens with the distances of one tree for all components: one function would ask for
// them here too, where a range has none, and is no plainer.
fn open_component(t: &mut Table, level: usize) -> usize {
    if t.is_range() {
        paths::open(t, level)
    } else {
        let d = Distances::of(t);
        trees::open(t, &d, level)
    }
}

// On which side of the level's centre a position lies, 0 at the centre.
fn port(t: &Table, level: usize, position: usize) -> usize {
    if t.is_range() {
        paths::side_of(t, level, position)
    } else {
        t.side_of(level, position).unwrap_or(0)
    }
}

// The level, whose component is set, is entered at a position.
pub fn open(t: &mut Table, level: usize, position: usize) {
    t.set(level, table::ENTERED, 1);
    t.set(level, table::POSITION, position);
    if open_component(t, level) == 0 {
        close(t, level, position);
    } else {
        let side = port(t, level, position);
        t.set(level, table::PORT, side);
    }
}

// The next level is entered by a side of this one's component.
pub fn enter(t: &mut Table, level: usize, entry: Entry) {
    sides::enter(t, level, entry.side);
    open(t, level.saturating_add(1), entry.position);
}
