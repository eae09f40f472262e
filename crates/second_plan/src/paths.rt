// Components of a range: the path from LOW to HIGH.
use crate::table;
use crate::table::Table;

// Keeps the centre of a level's path, a + (b-a)/2 rounded down, and its two neighbours.
fn set_centre(t: &mut Table, level: usize, centre: usize) {
    t.set(level, table::CENTRE, centre);
    t.set(level, table::NEIGHBOUR + 1, centre.saturating_sub(1));
    t.set(level, table::NEIGHBOUR + 2, centre.saturating_add(1));
    t.set(level, table::DEGREE, 2);
}

// Finds the centre and the two sides of a level's path; gives how many sides it has: one of one or two
// positions has none.
pub fn open(t: &mut Table, level: usize) -> usize {
    let low = t.at(level, table::LOW);
    let length = t.at(level, table::HIGH).saturating_sub(low);
    if length < 2 {
        return 0;
    }
    set_centre(t, level, low.saturating_add(length / 2));
    2
}

// On which side of a level's centre a position lies, 0 at the centre.
pub fn side_of(t: &Table, level: usize, position: usize) -> usize {
    let centre = t.at(level, table::CENTRE);
    if position < centre {
        1
    } else if centre < position {
        2
    } else {
        0
    }
}

// The next level's component becomes side 1 of this level's path, below the centre, or side 2, above it.
pub fn enter_side(t: &mut Table, level: usize, side: usize) {
    let centre = t.at(level, table::CENTRE);
    let (low, high) = if side == 1 {
        (t.at(level, table::LOW), centre.saturating_sub(1))
    } else {
        (centre.saturating_add(1), t.at(level, table::HIGH))
    };
    let below = level.saturating_add(1);
    t.set(below, table::LOW, low);
    t.set(below, table::HIGH, high);
}
