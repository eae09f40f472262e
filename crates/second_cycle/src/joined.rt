// Whether some edge of a set joins ends already joined. A set has bit e for edge e.
use second_plan::bits;
use second_plan::table::Edge;

// The vertices reached, with the one that an edge joins to them.
fn spread(edge: Edge, reached: usize) -> usize {
    if bits::has(reached, edge.a) {
        bits::with(reached, edge.b)
    } else if bits::has(reached, edge.b) {
        bits::with(reached, edge.a)
    } else {
        reached
    }
}

// The same with each of these edges that is in the set.
fn sweep(edges: &[Edge], set: usize, from: usize) -> usize {
    let mut reached = from;
    for (e, edge) in edges.iter().enumerate() {
        if bits::has(set, e) {
            reached = spread(*edge, reached);
        }
    }
    reached
}

// Whether the ends of an edge are joined by the edges of the set before it: as many sweeps as there
// may be such edges reach all that is joined.
fn is_joined(before: &[Edge], set: usize, edge: Edge) -> bool {
    let mut reached = bits::with(0, edge.a);
    for _ in before {
        reached = sweep(before, set, reached);
    }
    bits::has(reached, edge.b)
}

// Whether some edge of the set joins ends already joined.
pub fn closes(edges: &[Edge], set: usize) -> bool {
    for (e, edge) in edges.iter().enumerate() {
        if bits::has(set, e) && is_joined(&edges[..e], set, *edge) {
            return true;
        }
    }
    false
}
