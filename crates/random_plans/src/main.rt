// Verdicts of plans, cycles of rejected ones and sending levels of those that pass: random plans, of
// which more than a third are refused by 8, and trees and ranges that pass, in the library and in a
// second implementation; of small plans all sets of edges are tried.
#![tactic(auto)]

mod compare;
mod report;
mod tally;

use random_calls::is_same_verdict;
use random_plans_draw::Drawing;
use second_cycle::{path, sets};
use second_plan::table::PlanKind;
use std::io;
use tally::Tally;

// How many plans a run has, and the states of the pseudo-random numbers before each run's first.
const PLANS: usize = 4000;

const PASSING: usize = 1000;

const SEED: usize = 88172645463325252;

const OTHER_SEED: usize = 362436069123456789;

// A plan is read by both.
fn try_plan(bytes: &[u8], tally: &mut Tally) {
    let found = path::find(bytes);
    let bound = second_levels::find(bytes);
    tally.compare(is_same_verdict(&plan_reader::read(bytes), &found.verdict));
    tally.compare(compare::is_same_cycle(&plan_cycle::cycle_of(bytes), &found.cycle));
    tally.compare(compare::is_same_bound(&plan_messages::bound_of(bytes), &bound));
    if let Some(is_only_smallest) = sets::check(bytes, &found.cycle) {
        tally.count_small(is_only_smallest);
    }
    tally.count(&found);
    tally.count_levels(&bound);
}

// A run of plans from a seed.
fn run(rt: &impl Print, seed: usize) -> io::Result<()> {
    let mut drawing = Drawing::new(seed);
    let mut tally = Tally::new();
    println!(rt; "seed {seed}")?;
    for _ in 0..PLANS {
        try_plan(drawing.plan().as_slice(), &mut tally);
    }
    report::write(rt, &tally)
}

// A run of plans of a kind that pass.
fn run_passing(rt: &impl Print, kind: PlanKind, name: &str) -> io::Result<()> {
    let mut drawing = Drawing::new(SEED);
    let mut tally = Tally::new();
    println!(rt; "seed {SEED}")?;
    for _ in 0..PASSING {
        try_plan(drawing.passing_plan(kind).as_slice(), &mut tally);
    }
    report::write_passing(rt, &tally, name)
}

// Two runs of any plans, one of trees and one of ranges.
fn main(rt: HostRuntime) -> io::Result<()> {
    run(&rt, SEED)?;
    run(&rt, OTHER_SEED)?;
    run_passing(&rt, PlanKind::Tree, "trees")?;
    run_passing(&rt, PlanKind::Range, "ranges")
}
