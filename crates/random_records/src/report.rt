// What the run came to, in lines.
// The functions that write rows are alike in form alone: each has its own texts and counts.
use crate::tally::{Asked, Tally};
use random_records_draw::change::Change;
use random_report::Row;
use std::io;

// How many records with a change passed question 19, and how many failed.
fn write_change(rt: &impl Print, name: &str, asked: &Asked) -> io::Result<()> {
    println!(rt; "{name}: passed {}, failed {}", asked.passed, asked.failed)
}

// The same of records with several changes, and with each alone.
fn write_changes(rt: &impl Print, t: &Tally) -> io::Result<()> {
    write_change(rt, "several", &t.changes[0])?;
    for ((_, name), asked) in Change::ALL.iter().zip(t.changes.iter().skip(1)) {
        write_change(rt, name, asked)?;
    }
    Ok(())
}

// How many records there were.
fn write_records(rt: &impl Print, t: &Tally) -> io::Result<()> {
    println!(rt; "votes {}", t.votes)?;
    println!(rt; "records of refused set-ups {}", t.set_ups)?;
    println!(rt; "records of refused restores {}", t.restores)?;
    println!(rt; "records changed {}", t.records)
}

// What was called.
fn write_calls(rt: &impl Print, t: &Tally) -> io::Result<()> {
    let depths = Row::new(&t.depths, 0, 17);
    let refused = Row::new(&t.refused, 0, 25);
    println!(rt; "by levels entered:{depths}")?;
    println!(rt; "calls compared {}", t.calls)?;
    println!(rt; "of these on changed records {}", t.changed_calls)?;
    println!(rt; "accepted or refused by question:{refused}")
}

// What came of it.
fn write_ends(rt: &impl Print, t: &Tally) -> io::Result<()> {
    println!(rt; "rules applied on changed records {}", t.rules)?;
    println!(rt; "most rules in a call on one {}", t.most)?;
    println!(rt; "records compared as a whole {}", t.tables)?;
    println!(rt; "differences {}", t.differences)
}

// The run.
pub fn write(rt: &impl Print, t: &Tally) -> io::Result<()> {
    write_records(rt, t)?;
    write_changes(rt, t)?;
    write_calls(rt, t)?;
    write_ends(rt, t)
}
