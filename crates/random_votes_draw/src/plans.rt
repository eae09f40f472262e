// Random plans.
use arrayvec::ArrayVec;
use random_votes_state::plan::{Edge, Plan, PlanKind, VERTICES, Vertex};
use random_votes_state::random;
use random_votes_state::random::Random;

// How a tree grows: into a path, a star or any tree.
#[derive(Clone, Copy, PartialEq, Eq)]
pub enum Growth {
    Path,
    Star,
    Any,
}

// A vertex in the order of growth: its name, and how many edges it has.
#[derive(Clone, Copy, Default)]
struct Grown {
    name: usize,
    degree: usize,
}

// A tree that grows: its vertices in order, and its edges.
#[derive(Drop)]
struct Tree {
    order: [Grown; VERTICES],
    edges: ArrayVec<Edge, VERTICES>,
}

impl Tree {
    // All vertices before they are joined.
    fn new() -> Tree {
        let mut order = [Grown::default(); VERTICES];
        for (k, grown) in order.iter_mut().enumerate() {
            grown.name = k;
        }
        Tree {
            order,
            edges: ArrayVec::new(),
        }
    }

    // The first of so many vertices get random names.
    fn shuffle_names(&mut self, random: &mut Random, vertices: usize) {
        random::exchange(random, &mut self.order[..vertices.min(VERTICES)]);
    }

    // The vertex, before the k-th, to which the k-th is joined; the last of those where it has 15 edges.
    fn parent(&self, random: &mut Random, growth: Growth, k: usize) -> usize {
        let last = k.saturating_sub(1);
        let wanted = match growth {
            Growth::Path => last,
            Growth::Star => 0,
            Growth::Any => random.below(k),
        };
        match self.order.get(wanted) {
            Some(grown) if grown.degree < 15 => wanted,
            _ => last,
        }
    }

    // The k-th vertex gets an edge more; its name.
    fn add_edge(&mut self, k: usize) -> usize {
        match self.order.get_mut(k) {
            Some(grown) => {
                grown.degree = grown.degree.saturating_add(1);
                grown.name
            }
            None => 0,
        }
    }

    // The k-th vertex is joined to the p-th, with either end of the edge first.
    fn join(&mut self, random: &mut Random, vertices: &mut [Vertex; VERTICES], k: usize, p: usize) {
        let name = self.add_edge(k);
        let parent = self.add_edge(p);
        let depth = vertices.get(parent).map_or(0, |vertex| vertex.depth);
        if let Some(vertex) = vertices.get_mut(name) {
            *vertex = Vertex {
                parent,
                depth: depth.saturating_add(1),
            };
        }
        let _ = self.edges.try_push(if random.once_in(2) {
            Edge { a: parent, b: name }
        } else {
            Edge { a: name, b: parent }
        });
    }

    // Each of so many vertices but the first is joined to an earlier one.
    fn grow(
        &mut self,
        random: &mut Random,
        vertices: &mut [Vertex; VERTICES],
        growth: Growth,
        count: usize,
    ) {
        for k in 1..count {
            let p = self.parent(random, growth, k);
            self.join(random, vertices, k, p);
        }
    }
}

// A tree of so many vertices: its growth, and its bytes.
pub fn put_tree(random: &mut Random, plan: &mut Plan, growth: Growth, vertices: usize) {
    for (k, vertex) in plan.vertices.iter_mut().enumerate() {
        *vertex = Vertex {
            parent: k,
            depth: 0,
        };
    }
    let mut tree = Tree::new();
    if random.below(4) != 0 {
        tree.shuffle_names(random, vertices);
    }
    tree.grow(random, &mut plan.vertices, growth, vertices);
    random::exchange(random, tree.edges.as_mut_slice());
    plan.spelled.spell_tree(vertices, tree.edges.as_slice());
}

// A low reading: the least, the greatest, any, or one near 0.
fn low_reading(random: &mut Random, width: usize) -> i64 {
    let least = -2147483648;
    let greatest = 2147483647i64.saturating_sub_unsigned(width as u64);
    match random.below(8) {
        0 => least,
        1 => greatest,
        2 => random::reading(random, least, greatest),
        _ => random::reading(random, -20, 20),
    }
}

// The way in which a tree grows: in half of them any. (`Shape::draw` of random_records_draw draws other shapes.)
fn draw_growth(random: &mut Random) -> Growth {
    match random.below(4) {
        0 => Growth::Path,
        1 => Growth::Star,
        _ => Growth::Any,
    }
}

// A plan of a kind, with so many positions.
pub fn draw(random: &mut Random, plan: &mut Plan, kind: PlanKind, positions: usize) {
    plan.kind = kind;
    plan.last = positions.saturating_sub(1);
    match kind {
        PlanKind::Tree => {
            let growth = draw_growth(random);
            put_tree(random, plan, growth, positions);
            plan.low = 0;
        }
        PlanKind::Range => {
            plan.low = low_reading(random, plan.last);
            plan.spelled.spell_range(plan.low, plan.last);
        }
    }
}
