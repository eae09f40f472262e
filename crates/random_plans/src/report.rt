// What the run came to, in lines.
use crate::tally::Tally;
use random_report::Row;
use std::io;

// The plans, after a name of them.
fn write_plans(rt: &impl Print, t: &Tally, name: &str) -> io::Result<()> {
    let refused = Row::new(&t.refused, 0, 12);
    let sending = Row::new(&t.sending, 0, 16);
    println!(rt; "{name} {}", t.plans)?;
    println!(rt; "accepted or refused by question:{refused}")?;
    println!(rt; "plans that pass by sending levels:{sending}")
}

// The cycles, and what must be 0.
fn write_cycles(rt: &impl Print, t: &Tally) -> io::Result<()> {
    let lengths = Row::new(&t.lengths, 2, 9);
    println!(rt; "cycles by the binary digits of their length:{lengths}")?;
    println!(rt; "cycles of two edges {}", t.double)?;
    println!(rt; "longest cycle {}", t.longest)?;
    println!(rt; "cycles without vertex 0 {}", t.without_zero)?;
    println!(rt; "cycles without the plan's first edge {}", t.without_first)?;
    println!(rt; "cycles with other edges between theirs {}", t.gaps)?;
    println!(rt; "small plans of which all sets were tried {}", t.small)
}

// What must be 0.
fn write_differences(rt: &impl Print, t: &Tally) -> io::Result<()> {
    println!(rt; "differences {}", t.differences)
}

// The run of plans that pass.
pub fn write_passing(rt: &impl Print, t: &Tally, name: &str) -> io::Result<()> {
    write_plans(rt, t, name)?;
    write_differences(rt, t)
}

// The run.
pub fn write(rt: &impl Print, t: &Tally) -> io::Result<()> {
    write_plans(rt, t, "plans")?;
    write_cycles(rt, t)?;
    write_differences(rt, t)
}
