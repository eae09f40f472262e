// The edges of a tree as they are read, one after the other: questions 7 to 9 asked of each, and the columns that keep them.
#![tactic(auto)]

ghost use Rattle.std.specs.Prelude.{◌≡◌, [], ◌∷◌, ◌||◌, ℕ, ◌+◌, ◌≤◌, ◌<◌, eqb, length, get_or};
ghost use Rattle.base.specs.Sets.{bit};
ghost use Rattle.base.specs.Limits.{max_vertices, max_degree};
ghost use Rattle.base.specs.Verdict.{fault_number};
ghost use Rattle.tree.specs.Edges.{Below};
ghost use Rattle.edges.specs.Rows.{rows};
ghost use Rattle.edges.specs.Inner.{fault_in};

use base::Question;
use std::marker::Model;

const MAX_DEGREE: u16 = base::MAX_DEGREE as u16;

// The edges read so far of a tree of so many vertices. It is no `Copy`, which needs a view that forgets no field.
#[derive(Clone, Drop)]
pub struct EdgeList {
    vertices: usize,
    count: usize,
    // the ends of each edge, in two columns with a count: plan_growth, and the laws over `rows`, take columns
    one: [u16; base::MAX_ROWS],
    two: [u16; base::MAX_ROWS],
    // the sets of vertices that the edges join, as a forest, and the weight of each set
    up: [u16; base::MAX_VERTICES],
    weight: [u16; base::MAX_VERTICES],
    // how many edges end at each vertex
    degree: [u16; base::MAX_VERTICES],
}

// Clauses see the number of vertices and the edges, the latest first.
impl Model for EdgeList {
    ghost use Rattle.edges.specs.Inner.{TreeSoFar};

    ghost Value = { TreeSoFar };

    ghost use Rattle.edges.specs.Columns.{tree_so_far, Listing};

    ghost view = { tree_so_far };

    ghost invariant = { Listing };
}

impl EdgeList {
    // No edges yet, of a tree of so many vertices.
    pub fn new(vertices: usize) -> EdgeList
        requires { vertices ≤ max_vertices }
        ensures { result ≡ record { vertices = vertices; edges = [] } }
    {
        let mut up = [0; base::MAX_VERTICES];
        let mut weight = [0; base::MAX_VERTICES];
        union_find::fresh(&mut up, &mut weight, vertices);
        EdgeList {
            vertices,
            count: 0,
            one: [0; base::MAX_ROWS],
            two: [0; base::MAX_ROWS],
            up,
            weight,
            degree: [0; base::MAX_VERTICES],
        }
    }

    // Questions 7 to 9 of the ends of a further edge: the first that is answered by no is the error.
    pub fn check(&self, a: usize, b: usize) -> Result<(), Question>
        ensures { fault_number result ≡ fault_in self.now.vertices self.now.edges a b }
    {
        let v = self.vertices;
        if v <= a || v <= b || a == b {
            return Err(Question::EdgeEnds);
        }
        if union_find::same(&self.up, v, a, b) {
            return Err(Question::Acyclic);
        }
        if MAX_DEGREE <= self.degree[a] || MAX_DEGREE <= self.degree[b] {
            return Err(Question::Degree);
        }
        Ok(())
    }

    // A further edge, which passes them.
    #[tactic(auto, using(crate::proofs::Further::room_for_one))]
    pub fn add(&mut self, a: usize, b: usize)
        requires { (length self.old.edges + 1 < self.old.vertices) × (fault_in self.old.vertices self.old.edges a b ≡ 0) }
        ensures { self.new ≡ record { vertices = self.old.vertices; edges = record { one = a; two = b } ∷ self.old.edges } }
    {
        union_find::link(&mut self.up, &mut self.weight, self.vertices, a, b);
        count_edge(&mut self.degree, a, b);
        self.one[self.count] = a as u16;
        self.two[self.count] = b as u16;
        self.count += 1;
    }

    // The columns of the ends: row i of them is the edge that was read at i.
    pub fn ends(&self) -> (&[u16], &[u16])
        ensures columns { rows result.0.now result.1.now (length self.now.edges) ≡ self.now.edges }
        ensures places { (length self.now.edges ≤ length result.0.now) × (length self.now.edges ≤ length result.1.now) }
        ensures below { (self.now.vertices ≤ max_vertices) × Below self.now.vertices self.now.edges }
    {
        (&self.one, &self.two)
    }

    pub fn vertices(&self) -> usize
        ensures { result ≡ self.now.vertices }
    {
        self.vertices
    }

    // How many edges.
    pub fn len(&self) -> usize
        ensures { result ≡ length self.now.edges }
    {
        self.count
    }
}

// One more edge at a and at b.
fn count_edge(degree: &mut [u16], a: usize, b: usize)
    requires { (a < length degree.old) × (b < length degree.old) × (a ≡ b → ⊥) × (get_or degree.old a 0 < max_degree) × (get_or degree.old b 0 < max_degree) }
    ensures { (x : ℕ) → get_or degree.new x 0 ≡ bit (eqb x a || eqb x b) + get_or degree.old x 0 }
{
    degree[a] += 1;
    degree[b] += 1;
}
