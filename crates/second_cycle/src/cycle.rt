// What is found of a plan.
use second_plan::question::Refusal;
use second_plan::table::{Edge, VERTICES};
use second_wire::list::List;

// An edge of the plan: its number and its ends.
#[derive(Clone, Copy, Debug, Default, PartialEq, Eq)]
pub struct PlanEdge {
    pub number: usize,
    pub ends: Edge,
}

// The edges of a cycle, in plan order, the rejected one last; none where none is closed.
pub type Cycle = List<PlanEdge, VERTICES>;

// Whether the plan passes, and the cycle that makes question 8 refuse it: there is one with that refusal alone, so the verdict stands beside it.
#[derive(Clone, Copy)]
pub struct Found {
    pub verdict: Result<(), Refusal>,
    pub cycle: Cycle,
}
