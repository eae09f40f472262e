// Trees by the distances between their vertices: u lies nearer than v to exactly those vertices
// that are on u's side of the edge between them.
use crate::table;
use crate::table::{Edge, Table, VERTICES};
use second_wire::list::List;

// The distance of two vertices that are not joined: above every other.
const APART: u8 = u8::MAX;

// The distances of one vertex from all.
type Row = [u8; VERTICES];

// A vertex that another is joined with, and how far it is from that.
#[derive(Clone, Copy, Default)]
struct Joined {
    vertex: usize,
    length: u8,
}

// A distance for each two vertices: how many edges their path has.
#[derive(Clone, Copy)]
pub struct Distances {
    rows: [Row; VERTICES],
}

impl Distances {
    // No edges: every vertex is joined with itself only, and apart from the others.
    pub fn alone() -> Distances {
        let mut d = Distances {
            rows: [[APART; VERTICES]; VERTICES],
        };
        for v in 0..VERTICES {
            d.set(v, v, 0);
        }
        d
    }

    // The distances in the plan's tree.
    pub fn of(table: &Table) -> Distances {
        let mut d = Distances::alone();
        for edge in table.edges().iter().flatten() {
            d.join(*edge);
        }
        d
    }

    // The distances of v from all.
    fn row(&self, v: usize) -> Row {
        self.rows.get(v).map_or([APART; VERTICES], |row| *row)
    }

    // The distance of v and w.
    pub fn between(&self, v: usize, w: usize) -> u8 {
        self.rows
            .get(v)
            .and_then(|row| row.get(w))
            .map_or(APART, |x| *x)
    }

    // Whether v and w are joined.
    pub fn are_joined(&self, v: usize, w: usize) -> bool {
        self.between(v, w) < APART
    }

    // Whether v and w are the ends of an edge.
    pub fn are_neighbours(&self, v: usize, w: usize) -> bool {
        self.between(v, w) == 1
    }

    // Whether w lies nearer to u than to v.
    fn is_nearer(&self, w: usize, u: usize, v: usize) -> bool {
        self.between(w, u) < self.between(w, v)
    }

    // Sets the distance from v to w.
    fn set(&mut self, v: usize, w: usize, length: u8) {
        if let Some(row) = self.rows.get_mut(v)
            && let Some(cell) = row.get_mut(w)
        {
            *cell = length;
        }
    }

    // The vertices that v is joined with.
    fn joined(&self, v: usize) -> List<Joined, VERTICES> {
        let mut list = List::new();
        for (w, x) in self.row(v).iter().enumerate() {
            if *x < APART {
                list.push(Joined {
                    vertex: w,
                    length: *x,
                });
            }
        }
        list
    }

    // Joins v with the listed vertices, over the one that they are listed of, which is `length` away
    // from v.
    fn join_all(&mut self, v: usize, listed: &[Joined], length: u8) {
        for other in listed {
            let sum = length.saturating_add(other.length);
            self.set(v, other.vertex, sum);
            self.set(other.vertex, v, sum);
        }
    }

    // An edge joins all vertices joined with one end and all joined with the other. These are listed
    // first: a walk along a whole row for each of the others would take the cube of the vertices.
    pub fn join(&mut self, edge: Edge) {
        let left = self.joined(edge.a);
        let right = self.joined(edge.b);
        for one in left.as_slice() {
            self.join_all(one.vertex, right.as_slice(), one.length.saturating_add(1));
        }
    }

    // How many edges end at v.
    pub fn degree(&self, v: usize) -> usize {
        self.row(v).iter().filter(|x| **x == 1).count()
    }
}

// The component of a level.
#[derive(Clone, Copy)]
struct Component<'a> {
    table: &'a Table,
    distances: &'a Distances,
    level: usize,
}

impl Component<'_> {
    // Whether w is a member on the side of the vertex v that its neighbour u is on.
    fn is_beyond(&self, v: usize, u: usize, w: usize) -> bool {
        self.table.is_inside(self.level, w) && self.distances.is_nearer(w, u, v)
    }

    // How many members are on the side of v that its neighbour u is on.
    fn members_beyond(&self, v: usize, u: usize) -> usize {
        (0..VERTICES).filter(|w| self.is_beyond(v, u, *w)).count()
    }

    // Whether v is a member whose removal leaves parts of at most half of the members.
    fn is_light(&self, v: usize) -> bool {
        let half = self.table.at(self.level, table::MEMBERS) / 2;
        self.table.is_inside(self.level, v)
            && (0..VERTICES)
                .filter(|u| self.distances.are_neighbours(v, *u))
                .all(|u| self.members_beyond(v, u) <= half)
    }

    // The centre: the smallest-numbered such vertex.
    fn centre(&self) -> usize {
        (0..VERTICES).find(|v| self.is_light(*v)).unwrap_or(0)
    }
}

// The members on the side of the centre that its neighbour u is on get the side k.
fn mark_side(t: &mut Table, d: &Distances, level: usize, centre: usize, u: usize, k: usize) {
    for w in 0..VERTICES {
        if t.is_inside(level, w) && d.is_nearer(w, u, centre) {
            t.set_side(level, w, Some(k));
        }
    }
}

// The sides of a level's centre from 1 on are those of its neighbours in the component, in rising order.
// Marks them, keeps the neighbours and how many they are, and gives how many.
fn mark_sides(t: &mut Table, d: &Distances, level: usize, centre: usize) -> usize {
    let mut k = 0usize;
    for u in 0..VERTICES {
        if t.is_inside(level, u) && d.are_neighbours(centre, u) {
            k = k.saturating_add(1);
            t.set(level, table::NEIGHBOUR.saturating_add(k), u);
            mark_side(t, d, level, centre, u, k);
        }
    }
    t.set(level, table::DEGREE, k);
    k
}

// Finds the centre and the sides of a level's component; gives how many sides it has: one of one or two
// positions has none.
pub fn open(t: &mut Table, d: &Distances, level: usize) -> usize {
    if t.at(level, table::MEMBERS) < 3 {
        return 0;
    }
    let centre = Component {
        table: t,
        distances: d,
        level,
    }
    .centre();
    t.set(level, table::CENTRE, centre);
    mark_sides(t, d, level, centre)
}

// The next level's component becomes side k of this one's.
pub fn enter_side(t: &mut Table, level: usize, k: usize) {
    let below = level.saturating_add(1);
    let mut members = 0usize;
    for v in 0..VERTICES {
        let side = if t.side_of(level, v) == Some(k) {
            members = members.saturating_add(1);
            Some(0)
        } else {
            None
        };
        t.set_side(below, v, side);
    }
    t.set(below, table::MEMBERS, members);
}

// Level 0's component becomes the tree of so many vertices.
pub fn enter_whole(t: &mut Table, vertices: usize) {
    for v in 0..VERTICES {
        t.set_side(0, v, if v < vertices { Some(0) } else { None });
    }
    t.set(0, table::MEMBERS, vertices);
}
