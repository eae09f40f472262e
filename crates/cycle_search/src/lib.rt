// The edges on the cycle that the latest of some edges closes, by union-find with undo: the edges before
// it are joined one by one, and then undone, the latest first. At the root of each set two of its vertices
// are kept, between which the cycle runs inside the set: at first the ends of the rejected edge at their
// root, and at every other root that root twice, since the cycle does not run there. Where undoing an edge
// parts the two, the edge is on the cycle; on each side the edge's own end replaces a kept vertex that lies
// on the other side. What is kept at the roots is crate cycle_ends.
#![tactic(auto)]

ghost use Rattle.std.specs.Prelude.{◌≡◌, ℕ, ◌+◌, ◌≤◌, ◌<◌, length, get_or};
ghost use Rattle.base.specs.Sets.{bit};
ghost use Rattle.base.specs.Limits.{max_vertices, max_rows};
ghost use Rattle.tree.specs.Edges.{Edges, Below};
ghost use Rattle.cycles.specs.Cycles.{on_cycle};
ghost use Rattle.cycles.specs.Statement.{Rejected};
ghost use Rattle.cycles.specs.Inner.{needed};
ghost use Rattle.edges.specs.Rows.{rows};
ghost use Rattle.cycle_search.specs.Inner.{Undoes};

// (d) The two columns of ends stay apart, since the caller has them so. And union_find stays on slices, with no struct of roots and weights: here
// links are cut again, and roots are asked for where no weights hold.
use cycle_ends::{Column, Ends};

// The first m edges are joined one by one; `moved` gets the root that each moved.
fn join_all(one: &[u16], two: &[u16], m: usize, moved: &mut [u16; base::MAX_ROWS], up: &mut Column)
    requires { (m ≤ length one.now) × (m ≤ length two.now) × (m ≤ max_rows) × Below max_vertices (rows one.now two.now m) }
    ensures { Undoes max_vertices moved.new (rows one.now two.now m) up.new }
{
    let mut weight = [0u16; base::MAX_VERTICES];
    union_find::fresh(up, &mut weight, base::MAX_VERTICES);
    for i in 0..m {
        let a = usize::from(one[i]);
        let b = usize::from(two[i]);
        let r = union_find::link(up, &mut weight, base::MAX_VERTICES, a, b);
        moved[i] = r as u16;
    }
}

// What the search keeps of the edges that are joined: the root that each edge moved, the sets, and the two vertices kept at the root of each.
#[derive(Clone, Copy)]
struct Search {
    moved: [u16; base::MAX_ROWS],
    up: Column,
    ends: Ends,
}

impl Search {
    ghost use Rattle.cycle_search.specs.Search.{Joined, Asks};

    // The edges before the rejected edge j are joined, and its ends are kept at their root.
    fn begin(one: &[u16], two: &[u16], j: usize) -> Self
        requires { (j < length one.now) × (j < length two.now) × (j < max_rows) × Below max_vertices (rows one.now two.now (j + 1)) × Rejected (rows one.now two.now (j + 1)) }
        ensures { Joined j one.now two.now result × Asks (rows one.now two.now j) (get_or one.now j 0) (get_or two.now j 0) (rows one.now two.now j) result }
    {
        let mut moved = [0u16; base::MAX_ROWS];
        let mut up = [0u16; base::MAX_VERTICES];
        join_all(one, two, j, &mut moved, &mut up);
        let mut ends = Ends::keep_alone();
        ends.keep_ends(&up, one[j], two[j]);
        Search { moved, up, ends }
    }

    // Edge i, the latest that is joined, is undone. Its mark: 1 where it is on the cycle.
    fn undo(&mut self, one: &[u16], two: &[u16], i: usize) -> u8
        requires { Joined (i + 1) one.now two.now self.old }
        ensures { Joined i one.now two.now self.new × ((G : Edges) (a b : ℕ) → Asks G a b (rows one.now two.now (i + 1)) self.old → (result ≡ bit (needed G a b i)) × Asks G a b (rows one.now two.now i) self.new) }
    {
        let l = usize::from(self.moved[i]);
        let h = usize::from(self.up[l]);
        self.up[l] = self.moved[i];
        self.ends.shift(&self.up, l, h, one[i], two[i])
    }

    // The first m edges are undone one by one, the latest first, and each is marked.
    fn undo_all(&mut self, one: &[u16], two: &[u16], m: usize, marks: &mut [u8])
        requires { (m ≤ length marks.old) × Joined m one.now two.now self.old }
        ensures { (G : Edges) (a b : ℕ) → Asks G a b (rows one.now two.now m) self.old → (i : ℕ) → i < m → get_or marks.new i 0 ≡ bit (needed G a b i) }
    {
        for i in (0..m).rev() {
            marks[i] = self.undo(one, two, i);
        }
    }
}

// The m edges of the columns `one` and `two`, the latest of which is rejected: 1 is marked at those on the cycle that it closes, and 0 at the others.
pub fn mark(one: &[u16], two: &[u16], m: usize, marks: &mut [u8])
    requires { (m ≤ length one.now) × (m ≤ length two.now) × (m ≤ length marks.old) × (m ≤ max_rows) × Below max_vertices (rows one.now two.now m) × Rejected (rows one.now two.now m) }
    ensures { (i : ℕ) → i < m → get_or marks.new i 0 ≡ bit (on_cycle (rows one.now two.now m) i) }
{
    let last = m - 1;
    let mut search = Search::begin(one, two, last);
    search.undo_all(one, two, last, marks);
    marks[last] = 1;
}
