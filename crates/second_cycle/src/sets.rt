// The cycle of a small plan by the sentence as it stands: of all sets of the edges up to the rejected
// one, those in which some edge joins ends already joined, and of these the smallest.
use crate::cycle::Cycle;
use crate::{joined, path};
use arrayvec::ArrayVec;
use second_plan::bits;
use second_plan::table::Edge;
use second_wire::reader::Reader;

// The most edges, and the most vertices.
const EDGES: usize = 10;

const VERTICES: usize = 64;

// The edges of a small plan.
type Edges = ArrayVec<Edge, EDGES>;

// The plan's edges up to the last of the cycle, if they and the plan's vertices are few.
fn small_plan(bytes: &[u8], cycle: &Cycle) -> Option<Edges> {
    let rejected = cycle.last()?.number;
    let mut reader = Reader::new(bytes, 0);
    if EDGES <= rejected || VERTICES < path::read_vertices(&mut reader)? {
        return None;
    }
    let mut edges = Edges::new();
    for _ in 0..=rejected {
        let edge = path::read_edge(&mut reader)?;
        edges.try_push(edge).ok()?;
    }
    Some(edges)
}

// The set of the cycle's edges.
fn set_of(cycle: &Cycle) -> usize {
    cycle
        .iter()
        .fold(0, |set, edge| bits::with(set, edge.number))
}

// Whether the set is the smallest that closes a cycle, and the only one of its size: it does, and no
// other of at most as many edges does.
fn is_only_smallest(edges: &[Edge], smallest: usize) -> bool {
    let others = bits::with(0, edges.len());
    joined::closes(edges, smallest)
        && !(0..others).any(|set| {
            set != smallest
                && set.count_ones() <= smallest.count_ones()
                && joined::closes(edges, set)
        })
}

// Whether the cycle of a plan is the smallest set of edges that closes one, and the only one; none
// where the plan is not small enough for this.
pub fn check(bytes: &[u8], cycle: &Cycle) -> Option<bool> {
    let edges = small_plan(bytes, cycle)?;
    Some(is_only_smallest(edges.as_slice(), set_of(cycle)))
}
