// What the two implementations gave is compared.
use random_calls::{is_same_verdict, wide};
use second_cycle::cycle::{Cycle, PlanEdge};
use second_levels::Bound;
use second_plan::question::Refusal;
use second_plan::table::Edge;

// Whether verdicts, levels and messages are the same.
pub fn is_same_bound(
    first: &Result<plan_messages::Bound, base::Refusal>,
    second: &Result<Bound, Refusal>,
) -> bool {
    match (first, second) {
        (Ok(first), Ok(second)) => {
            wide(first.levels) == second.levels && wide(first.messages) == second.messages
        }
        _ => is_same_verdict(first, second),
    }
}

// Edge i of the library's cycle.
fn edge(first: &plan_cycle::Cycle, i: usize) -> Option<PlanEdge> {
    Some(PlanEdge {
        number: usize::from(*first.numbers.get(i)?),
        ends: Edge {
            a: usize::from(*first.one.get(i)?),
            b: usize::from(*first.two.get(i)?),
        },
    })
}

// Whether the cycles are the same; the library's holds zeros after its edges.
pub fn is_same_cycle(first: &plan_cycle::Cycle, second: &Cycle) -> bool {
    first.count == second.len()
        && (0..base::MAX_ROWS).all(|i| edge(first, i)
            == Some(second.get(i).copied().unwrap_or_default()))
}
