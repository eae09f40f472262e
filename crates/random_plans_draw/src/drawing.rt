// What is drawn: the pseudo-random numbers, and the tree or forest of the plan.
use random_numbers::Random;
use second_plan::table::Edge;
use second_wire::list::List;

// How many edges and how many names there is room for.
const ROOM: usize = 512;

// The numbers; the last tree or forest drawn: how many vertices, which are drawn as 0, 1 and so on, its
// edges, and the vertices' names, which are their numbers in the plan.
#[derive(Clone, Copy)]
pub struct Drawing {
    pub random: Random,
    pub vertices: usize,
    pub edges: List<Edge, ROOM>,
    pub names: List<usize, ROOM>,
}

impl Drawing {
    // Nothing drawn yet.
    pub fn new(seed: usize) -> Drawing {
        Drawing {
            random: Random::new(seed),
            vertices: 0,
            edges: List::new(),
            names: List::new(),
        }
    }

    // So many vertices, and no edges.
    pub fn begin(&mut self, vertices: usize) {
        self.vertices = vertices;
        self.edges.clear();
    }

    // One more edge, after the others, if there is room for it.
    pub fn add(&mut self, a: usize, b: usize) {
        self.edges.push(Edge { a, b });
    }

    // Any of the edges, if there are any.
    pub fn any_edge(&mut self) -> Option<Edge> {
        if self.edges.is_empty() {
            return None;
        }
        let i = self.random.below(self.edges.len());
        self.edges.get(i).copied()
    }

    // The name of vertex v.
    pub fn name(&self, v: usize) -> usize {
        self.names.get(v).copied().unwrap_or(0)
    }
}
