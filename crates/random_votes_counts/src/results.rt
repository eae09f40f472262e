// What starts by count and count readings came to.
// The functions that write rows are alike in form alone: each has its own texts and counts.
use crate::read::Given;
use random_report::Row;
use random_votes_state::totals;
use random_votes_state::totals::Counts;
use std::io;

// A count reading is counted, by its number or by whether it gives an answer.
pub fn count(counts: &mut Counts, given: Given) {
    match given {
        Ok(Some(_)) => totals::count(&mut counts.answered),
        Ok(None) => totals::count(&mut counts.unanswered),
        Err(refused) => totals::count_at(&mut counts.refused, refused.number % 32),
    }
}

// The lines on starts by count.
fn write_starts(rt: &impl Print, counts: &Counts) -> io::Result<()> {
    println!(rt;
        "starts by count, by the remainder: half a step below, less below, 0, less above, half a step above:{}",
        Row::new(&counts.remainders, 1, 6)
    )?;
    println!(rt;
        "starts by count refused by question:{}",
        Row::new(&counts.starts_refused, 12, 26)
    )?;
    println!(rt; "starts by count {}", counts.starts)
}

// The lines on count readings.
fn write_readings(rt: &impl Print, counts: &Counts) -> io::Result<()> {
    println!(rt; "count readings with an answer {}", counts.answered)?;
    println!(rt; "without {}", counts.unanswered)?;
    println!(rt; "refused by 12 {}", counts.refused[12])?;
    println!(rt; "by 19 {}", counts.refused[19])?;
    println!(rt; "by 25 {}", counts.refused[25])
}

// The lines on count answers.
fn write_answers(rt: &impl Print, counts: &Counts) -> io::Result<()> {
    let readings = &counts.readings;
    println!(rt;
        "count answers of sound boards, by their own counts {}",
        readings.answers
    )?;
    println!(rt; "cuts after a count answer {}", readings.cuts)?;
    println!(rt;
        "of these, cuts at which it alone guarded the last records {}",
        readings.guards
    )
}

// The lines on how far they lie apart.
fn write_apart(rt: &impl Print, counts: &Counts) -> io::Result<()> {
    let [not, at_most_one, less_than_two, two] = counts.apart;
    println!(rt; "votes by counts whose count answers are all the same {not}")?;
    println!(rt; "with count answers at most a step apart {at_most_one}")?;
    println!(rt; "less than two steps {less_than_two}")?;
    println!(rt; "exactly two steps {two}")
}

pub fn write(rt: &impl Print, counts: &Counts) -> io::Result<()> {
    write_starts(rt, counts)?;
    write_readings(rt, counts)?;
    write_answers(rt, counts)?;
    write_apart(rt, counts)
}
