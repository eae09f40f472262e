// Chains of components: level 0's is the whole plan, and each next one a side of the one before.
use second_plan::table::Table;
use second_plan::trees::Distances;
use second_plan::{paths, sides, trees};

// Levels are 0 to 15.
const LEVELS: usize = 16;

// A level's component gets its centre and sides; how many sides it has. second_rules::levels says why
// it is not one with that crate's.
fn open(t: &mut Table, d: &Distances, level: usize) -> usize {
    if t.is_range() {
        paths::open(t, level)
    } else {
        trees::open(t, d, level)
    }
}

// The most levels of a chain that send, from this level on, whose component is set: each but a last
// one of one or two positions, which has no sides.
pub fn deepest(t: &mut Table, d: &Distances, level: usize) -> usize {
    if LEVELS <= level {
        return 0;
    }
    let mut most = 0usize;
    for side in 1..=open(t, d, level) {
        sides::enter(t, level, side);
        most = most.max(deepest(t, d, level + 1).saturating_add(1));
    }
    most
}
