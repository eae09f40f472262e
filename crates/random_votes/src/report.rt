// What the run came to, in lines.
// The functions that write rows are alike in form alone: each has its own texts and counts.
use random_report::Row;
use random_votes_state::totals::{Broken, Cuts, Lengths, Rules, Totals};
use random_votes_state::vote::{Firsts, Noted};
use std::io;

// Where something was first in a seed's votes, if it was.
fn write_first(rt: &impl Print, first: Option<Noted>) -> io::Result<()> {
    match first {
        Some(Noted { vote, call }) => println!(rt; "first in vote {vote}, call {call}"),
        None => Ok(()),
    }
}

// How many votes and calls there were, and what was called.
fn write_calls(rt: &impl Print, totals: &Totals) -> io::Result<()> {
    println!(rt; "votes {}", totals.votes)?;
    println!(rt; "votes on the widest range {}", totals.wide_ranges)?;
    println!(rt; "votes on a tree of 255 vertices {}", totals.large_trees)?;
    println!(rt; "calls compared {}", totals.calls)?;
    println!(rt;
        "accepted set-up, start, take, reading, restore:{}",
        Row::new(&totals.accepted, 1, 6)
    )?;
    println!(rt; "refused by question:{}", Row::new(&totals.refused, 1, 26))
}

// Messages refused by 15 and 22, by the field at the place.
fn write_broken(rt: &impl Print, broken: &Broken) -> io::Result<()> {
    println!(rt;
        "refused by 15 at agreement number, level, kind, value:{}",
        Row::new(&broken.cut, 1, 5)
    )?;
    println!(rt;
        "of these with no byte of it there:{}",
        Row::new(&broken.cut_before, 1, 5)
    )?;
    println!(rt;
        "refused by 22 at the same:{}",
        Row::new(&broken.malformed, 1, 5)
    )?;
    println!(rt;
        "of these with its last byte not there:{}",
        Row::new(&broken.malformed_cut, 1, 5)
    )
}

// Messages refused by 23 and 24, by the field at the place or before it; journals that end inside a field.
fn write_outside(rt: &impl Print, broken: &Broken) -> io::Result<()> {
    println!(rt;
        "refused by 23 at level, kind, value:{}",
        Row::new(&broken.outside, 2, 5)
    )?;
    println!(rt;
        "refused by 24 after kind, value:{}",
        Row::new(&broken.spare_after, 3, 5)
    )?;
    println!(rt;
        "journals refused by 21 for a number cut short that is above its limit {}",
        broken.journals_above
    )
}

// Lengths in bytes of positions and agreement numbers, and records at the border of question 17.
fn write_lengths(rt: &impl Print, lengths: &Lengths) -> io::Result<()> {
    println!(rt;
        "starts by bytes of the position:{}",
        Row::new(&lengths.positions, 1, 4)
    )?;
    println!(rt;
        "votes by bytes of the agreement number:{}",
        Row::new(&lengths.numbers, 1, 6)
    )?;
    println!(rt;
        "records that filled the journal, by the same:{}",
        Row::new(&lengths.filled, 1, 6)
    )?;
    println!(rt;
        "records a byte too long for it, by the same:{}",
        Row::new(&lengths.byte_short, 1, 6)
    )
}

// What rules did in starts and takes.
fn write_rules(rt: &impl Print, rules: &Rules) -> io::Result<()> {
    println!(rt;
        "rules applied by boards:{}",
        Row::new(&rules.boards, 1, 15)
    )?;
    println!(rt;
        "rules applied by the bench:{}",
        Row::new(&rules.bench, 1, 15)
    )?;
    println!(rt;
        "levels entered by boards:{}",
        Row::new(&rules.entered, 0, 16)
    )?;
    println!(rt; "results by grade:{}", Row::new(&rules.grades, 0, 3))
}

// What was said.
fn write_messages(rt: &impl Print, totals: &Totals) -> io::Result<()> {
    println!(rt;
        "messages handed over by kind:{}",
        Row::new(&totals.kinds, 1, 7)
    )?;
    println!(rt; "lies taken by level:{}", Row::new(&totals.lies, 0, 15))?;
    println!(rt;
        "lies told otherwise to another board {}",
        totals.two_tongued
    )?;
    println!(rt; "lies among the last deliveries {}", totals.last_lies)
}

// Cuts.
fn write_cuts(rt: &impl Print, cuts: &Cuts) -> io::Result<()> {
    println!(rt; "cuts {}", cuts.all)?;
    println!(rt; "cuts after a reading {}", cuts.after_reading)?;
    println!(rt; "cuts while down {}", cuts.while_down)?;
    println!(rt;
        "cuts at which the wire module forgot what was handed over {}",
        cuts.queues_lost
    )
}

// What cuts lost.
fn write_losses(rt: &impl Print, cuts: &Cuts) -> io::Result<()> {
    println!(rt;
        "messages forgotten before every sound board had taken them {}",
        cuts.messages_lost
    )?;
    println!(rt; "votes with messages forgotten so {}", cuts.lossy_votes)?;
    println!(rt;
        "of these, votes in which every sound board has an answer in the end {}",
        cuts.came_through
    )?;
    println!(rt; "messages handed over by restores {}", cuts.given_again)?;
    println!(rt; "torn records dropped {}", cuts.torn)?;
    println!(rt; "starts lost {}", cuts.starts_lost)
}

// How votes ended, and how many messages sound boards made: the last count must be 0.
fn write_ends(rt: &impl Print, totals: &Totals) -> io::Result<()> {
    println!(rt; "answers {}", totals.answers)?;
    println!(rt; "votes with answers one edge apart {}", totals.split_votes)?;
    println!(rt;
        "messages of a sound board at one level at most {}",
        totals.most_messages
    )?;
    println!(rt;
        "messages beyond 7 at a level, or beyond the plan's levels {}",
        totals.beyond
    )
}

// What must be 0, and where it was first in the votes of each seed.
fn write_faults(
    rt: &impl Print,
    totals: &Totals,
    first: &Firsts,
    second: &Firsts,
) -> io::Result<()> {
    println!(rt;
        "calls whose rules are not as many as reported {}",
        totals.miscounted
    )?;
    write_first(rt, first.miscount)?;
    write_first(rt, second.miscount)?;
    println!(rt; "differences {}", totals.differences)?;
    write_first(rt, first.difference)?;
    write_first(rt, second.difference)?;
    println!(rt;
        "answers against demand 3 or the claims of pairs and counts {}",
        totals.faulty_answers
    )?;
    write_first(rt, first.fault)?;
    write_first(rt, second.fault)
}

// The run.
pub fn write(rt: &impl Print, totals: &Totals, first: &Firsts, second: &Firsts) -> io::Result<()> {
    write_calls(rt, totals)?;
    write_broken(rt, &totals.broken)?;
    write_outside(rt, &totals.broken)?;
    write_lengths(rt, &totals.lengths)?;
    write_rules(rt, &totals.rules)?;
    write_messages(rt, totals)?;
    write_cuts(rt, &totals.cuts)?;
    write_losses(rt, &totals.cuts)?;
    write_ends(rt, totals)?;
    random_votes_pairs::results::write(rt, &totals.pairs)?;
    random_votes_counts::results::write(rt, &totals.counts)?;
    write_faults(rt, totals, first, second)
}
