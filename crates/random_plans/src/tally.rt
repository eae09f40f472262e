// What is counted of plans, of their cycles and of their levels.
use random_calls::{Refused, number_of};
use random_report::{count, count_at, count_if};
use second_cycle::cycle::{Cycle, Found};
use second_levels::Bound;
use second_plan::question::Refusal;

// Counts over a run.
#[derive(Clone, Copy)]
pub struct Tally {
    pub plans: usize,
    // Plans by the number of their refusal, 0 where they were accepted.
    pub refused: [usize; 12],
    // Accepted plans by the number of their sending levels.
    pub sending: [usize; 16],
    // Cycles by the binary digits of their length.
    pub lengths: [usize; 9],
    pub double: usize,
    pub longest: usize,
    pub without_zero: usize,
    pub without_first: usize,
    pub gaps: usize,
    pub small: usize,
    pub differences: usize,
}

// How many binary digits a length has.
fn digits(length: usize) -> usize {
    length.checked_ilog2().map_or(0, |log| log as usize + 1)
}

// Whether an edge of the cycle ends at vertex 0.
fn has_zero(cycle: &Cycle) -> bool {
    cycle
        .iter()
        .any(|edge| edge.ends.a == 0 || edge.ends.b == 0)
}

// The number of the cycle's first edge, and of the rejected one, which is its last.
fn ends(cycle: &Cycle) -> Option<(usize, usize)> {
    Some((cycle.first()?.number, cycle.last()?.number))
}

// Whether an edge between the first and the last of so many edges is not among them.
fn has_gaps(first: usize, last: usize, count: usize) -> bool {
    first.saturating_add(count) != last.saturating_add(1)
}

impl Tally {
    // Nothing counted yet.
    pub fn new() -> Tally {
        Tally {
            plans: 0,
            refused: [0; 12],
            sending: [0; 16],
            lengths: [0; 9],
            double: 0,
            longest: 0,
            without_zero: 0,
            without_first: 0,
            gaps: 0,
            small: 0,
            differences: 0,
        }
    }

    // What both implementations give is the same, or a difference.
    // The tally of random_records does so too: one for both would be a struct of one number, which is no
    // plainer than this line.
    pub fn compare(&mut self, is_same: bool) {
        count_if(&mut self.differences, !is_same);
    }

    // A cycle, if there is one.
    fn count_cycle(&mut self, cycle: &Cycle) {
        let Some((first, last)) = ends(cycle) else {
            return;
        };
        let length = cycle.len();
        self.longest = self.longest.max(length);
        count_at(&mut self.lengths, digits(length));
        count_if(&mut self.double, length == 2);
        count_if(&mut self.without_first, first != 0);
        count_if(&mut self.without_zero, !has_zero(cycle));
        count_if(&mut self.gaps, has_gaps(first, last, length));
    }

    // A plan.
    pub fn count(&mut self, found: &Found) {
        let number = number_of(found.verdict.map_err(Refused::from));
        count(&mut self.plans);
        count_at(&mut self.refused, number);
        self.count_cycle(&found.cycle);
    }

    // The sending levels of a plan that passes.
    pub fn count_levels(&mut self, bound: &Result<Bound, Refusal>) {
        if let Ok(bound) = bound {
            count_at(&mut self.sending, bound.levels);
        }
    }

    // A small plan, of which all sets of edges were tried: whether its cycle is the only smallest.
    pub fn count_small(&mut self, is_only_smallest: bool) {
        count(&mut self.small);
        self.compare(is_only_smallest);
    }
}
