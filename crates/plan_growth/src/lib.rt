// A tree's edges laid as rows in an order in which it grows from vertex 0, in linear time: the edges are taken one by one; each hangs at both its ends
// in chains, the latest first, and the chain at a vertex is walked once, when a row reaches it.
#![tactic(auto)]

ghost use Rattle.std.specs.Prelude.{◌≡◌, [], ◌∷◌, ◌+◌, ◌<◌, ◌≤◌, T, length, get_or};
ghost use Rattle.base.specs.Limits.{max_vertices};
ghost use Rattle.tree.specs.Edges.{Below};
ghost use Rattle.tree.specs.Growth.{reached, extended, others, branched, absorbed, growth_order};
ghost use Rattle.edges.specs.Rows.{rows};
ghost use Rattle.plan_growth.specs.Inner.{edge, Laid, At, Latest, edges_of, rows_of, NextFits};

use std::marker::Model;

// The first `count` edges of two lent columns of ends, which hang in chains. Edges are numbered from 1 here: the latest at each vertex, and the one
// before each edge at its first and at its second end; 0 where there is none.
#[derive(Drop)]
struct Hanging<'a> {
    one: &'a [u16],
    two: &'a [u16],
    count: usize,
    latest: [u16; base::MAX_VERTICES],
    before1: [u16; base::MAX_ROWS],
    before2: [u16; base::MAX_ROWS],
}

// Clauses see the two columns and how many edges hang.
impl<'a> Model for Hanging<'a> {
    ghost use Rattle.plan_growth.specs.Inner.{Columns};

    ghost Value = { Columns };

    ghost use Rattle.plan_growth.specs.Hanging.{columns, Hangs};

    ghost view = { columns };

    ghost invariant = { Hangs };
}

impl<'a> Hanging<'a> {
    // No edge of the columns hangs yet.
    fn new(one: &'a [u16], two: &'a [u16]) -> Self
        ensures { result ≡ record { one = one.now; two = two.now; count = 0 } }
    {
        Hanging {
            one,
            two,
            count: 0,
            latest: [0; base::MAX_VERTICES],
            before1: [0; base::MAX_ROWS],
            before2: [0; base::MAX_ROWS],
        }
    }

    // The ends of the edge after those that hang.
    fn next(&self) -> (u16, u16)
        requires { NextFits self.now }
        ensures { (result.0 ≡ get_or self.now.one self.now.count 0) × (result.1 ≡ get_or self.now.two self.now.count 0) }
    {
        (self.one[self.count], self.two[self.count])
    }

    // It hangs at both its ends, before those that hang there.
    fn hang(&mut self)
        requires { NextFits self.old }
        ensures { self.new ≡ record { one = self.old.one; two = self.old.two; count = self.old.count + 1 } }
    {
        let i = self.count;
        let a = usize::from(self.one[i]);
        let b = usize::from(self.two[i]);
        self.before1[i] = self.latest[a];
        self.before2[i] = self.latest[b];
        self.latest[a] = (i + 1) as u16;
        self.latest[b] = (i + 1) as u16;
        self.count = i + 1;
    }

    // The latest edge that hangs at x.
    fn last(&self, x: u16) -> u16
        requires { x < max_vertices }
        ensures { Latest self.now.one self.now.two x self.now.count result }
    {
        self.latest[usize::from(x)]
    }

    // Of edge e, which hangs at x: its other end, and the edge before it at x.
    fn along(&self, e: usize, x: u16) -> (u16, u16)
        requires { (e < self.now.count) × At self.now.one self.now.two x e }
        ensures other { (others x (rows self.now.one self.now.two (e + 1)) ≡ result.0 ∷ others x (rows self.now.one self.now.two e)) × (result.0 < max_vertices) }
        ensures before { Latest self.now.one self.now.two x e result.1 }
    {
        let (one, two) = (self.one, self.two);
        if x == one[e] {
            return (two[e], self.before1[e]);
        }
        (one[e], self.before2[e])
    }
}

// Rows in growth order: row i leads from parent[i], which is reached, to child[i]. 1 stands in `seen` at each vertex that is reached. Unused places are 0.
#[derive(Drop)]
pub struct RowList {
    pub parent: [u16; base::MAX_ROWS],
    pub child: [u16; base::MAX_ROWS],
    pub seen: [u8; base::MAX_VERTICES],
    pub count: usize,
}

// Clauses see the fields, since `grow` promises what they hold. That they hold rows in growth order is true of every value.
impl Model for RowList {
    ghost use Rattle.plan_growth.specs.Inner.{Listed};

    ghost Value = { Listed };

    ghost use Rattle.plan_growth.specs.Holding.{listed, Holds};

    ghost view = { listed };

    ghost invariant = { Holds };
}

impl RowList {
    // No rows yet: vertex 0 alone is reached.
    fn new() -> Self
        ensures { rows_of result ≡ [] }
    {
        let mut seen = [0; base::MAX_VERTICES];
        seen[0] = 1;
        RowList {
            parent: [0; base::MAX_ROWS],
            child: [0; base::MAX_ROWS],
            seen,
            count: 0,
        }
    }

    // A further row, from a vertex that is reached to one that is not.
    fn append(&mut self, from: u16, to: u16)
        requires { (from < max_vertices) × (to < max_vertices) × T (reached (rows_of self.old) from) × (T (reached (rows_of self.old) to) → ⊥) }
        ensures { rows_of self.new ≡ edge from to ∷ rows_of self.old }
    {
        self.parent[self.count] = from;
        self.child[self.count] = to;
        self.seen[usize::from(to)] = 1;
        self.count += 1;
    }

    // A row from x, which is reached, to y where that is not.
    fn branch(&mut self, x: u16, y: u16)
        requires { (x < max_vertices) × (y < max_vertices) × T (reached (rows_of self.old) x) }
        ensures { rows_of self.new ≡ branched x (y ∷ []) (rows_of self.old) }
    {
        if self.seen[usize::from(y)] == 1 {
            return;
        }
        self.append(x, y);
    }

    // The edge a-b becomes a row, turned so that it leads on, where just one end is reached.
    fn extend(&mut self, a: u16, b: u16)
        requires { (a < max_vertices) × (b < max_vertices) }
        ensures { rows_of self.new ≡ extended (edge a b) (rows_of self.old) }
    {
        if self.seen[usize::from(a)] == 1 {
            self.branch(a, b);
        } else if self.seen[usize::from(b)] == 1 {
            self.branch(b, a);
        }
    }

    // A row from x, which is reached, to the other end of each edge that hangs at x, where that end is not reached.
    fn branch_all(&mut self, hanging: &Hanging, x: u16)
        requires { (x < max_vertices) × T (reached (rows_of self.old) x) }
        ensures { rows_of self.new ≡ branched x (others x (edges_of hanging.now)) (rows_of self.old) }
    {
        let mut n = usize::from(hanging.last(x));
        // No `for`: it follows the chain, to the edge before which there is none.
        while n != 0 {
            let (y, before) = hanging.along(n - 1, x);
            self.branch(x, y);
            n = usize::from(before);
        }
    }

    // The rows from row `from` on bring along what hangs where they lead.
    fn absorb(&mut self, hanging: &Hanging, from: usize)
        ensures { rows_of self.new ≡ absorbed max_vertices (edges_of hanging.now) from (rows_of self.old) }
    {
        let mut row = from;
        // No `for`: the rows that are still to come grow in number as the loop goes.
        while row < self.count {
            let x = self.child[row];
            self.branch_all(hanging, x);
            row += 1;
        }
    }

    // The edge after those that hang: if it leads on it becomes a row, and brings along what hangs on it.
    fn take_edge(&mut self, hanging: &Hanging)
        requires { NextFits hanging.now }
        ensures { rows_of self.new ≡ absorbed max_vertices (edges_of hanging.now) self.old.count (extended (edge (get_or hanging.now.one hanging.now.count 0) (get_or hanging.now.two hanging.now.count 0)) (rows_of self.old)) }
    {
        let from = self.count;
        let (a, b) = hanging.next();
        self.extend(a, b);
        self.absorb(hanging, from);
    }
}

// The m edges of the columns `one` and `two` as rows in growth order.
pub fn grow(one: &[u16], two: &[u16], m: usize) -> RowList
    requires { Below (m + 1) (rows one.now two.now m) × (m ≤ length one.now) × (m ≤ length two.now) × (m + 1 ≤ max_vertices) }
    ensures { Laid (m + 1) (growth_order (rows one.now two.now m)) result.parent result.child result.seen result.count }
{
    let mut list = RowList::new();
    let mut hanging = Hanging::new(one, two);
    for _ in 0..m {
        list.take_edge(&hanging);
        hanging.hang();
    }
    // What is true of every list is known where a field is used.
    let _ = &list.count;
    list
}
