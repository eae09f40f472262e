// The cycle by distances: the rejected edge, and before it the edges on the path between its ends.
use crate::cycle::{Cycle, Found, PlanEdge};
use second_plan::plans;
use second_plan::question::{Question, Refusal};
use second_plan::table::{Edge, Table};
use second_plan::trees::Distances;
use second_wire::reader::Reader;

// Whether the way from a to p, over an edge to q, and on to b is as long as the path from a to b.
fn is_way(d: &Distances, a: usize, b: usize, p: usize, q: usize) -> bool {
    let there = d.between(a, p).saturating_add(1);
    there.saturating_add(d.between(q, b)) == d.between(a, b)
}

// Whether an edge is on the path between the ends of another.
fn is_on_path(d: &Distances, path: Edge, edge: Edge) -> bool {
    is_way(d, path.a, path.b, edge.a, edge.b) || is_way(d, path.a, path.b, edge.b, edge.a)
}

// A plan's vertex count, which stands after its kind.
pub fn read_vertices(reader: &mut Reader) -> Option<usize> {
    reader.group().ok()?;
    reader.group().ok()
}

// The next edge.
pub fn read_edge(reader: &mut Reader) -> Option<Edge> {
    let a = reader.group().ok()?;
    let b = reader.group().ok()?;
    Some(Edge { a, b })
}

// The edge after so many others.
fn edge_after(bytes: &[u8], edges: usize) -> Option<Edge> {
    let mut reader = Reader::new(bytes, 0);
    read_vertices(&mut reader)?;
    for _ in 0..edges {
        read_edge(&mut reader)?;
    }
    read_edge(&mut reader)
}

// The cycle that the edge after those of the table closes.
fn closed_cycle(bytes: &[u8], t: &Table) -> Cycle {
    let mut cycle = Cycle::new();
    let edges = t.edges().iter().flatten().count();
    if let Some(rejected) = edge_after(bytes, edges) {
        let d = Distances::of(t);
        for (number, edge) in t.edges().iter().flatten().enumerate() {
            if is_on_path(&d, rejected, *edge) {
                cycle.push(PlanEdge {
                    number,
                    ends: *edge,
                });
            }
        }
        cycle.push(PlanEdge {
            number: edges,
            ends: rejected,
        });
    }
    cycle
}

// Whether the plan passes; where question 8 refuses it, the cycle.
pub fn find(bytes: &[u8]) -> Found {
    let mut t = Table::new();
    let verdict = plans::read(bytes, &mut t);
    let cycle = match verdict {
        Err(
            Refusal {
                question: Question::Joined,
                ..
            },
        ) => closed_cycle(bytes, &t),
        _ => Cycle::new(),
    };
    Found { verdict, cycle }
}
