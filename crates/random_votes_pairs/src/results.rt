// What pair readings came to.
// The functions that write rows are alike in form alone: each has its own texts and counts.
use crate::read::Given;
use random_report::Row;
use random_votes_state::totals;
use random_votes_state::totals::Pairs;
use second_plan::table::Table;
use std::io;

// Whether the table has an answer.
fn has_answer(table: &Table) -> bool {
    second::answer(table).is_some()
}

// A pair reading is counted, by its number or by who has an answer.
pub fn count(pairs: &mut Pairs, given: Given, first: &Table, second: &Table) {
    if let Err(refused) = given {
        totals::count_at(&mut pairs.refused, refused.number % 32);
        return;
    }
    totals::count(match (has_answer(first), has_answer(second)) {
        (true, true) => &mut pairs.answered,
        (false, false) => &mut pairs.neither,
        (true, false) => &mut pairs.first_only,
        (false, true) => &mut pairs.second_only,
    });
}

// The lines on pair readings.
fn write_readings(rt: &impl Print, pairs: &Pairs) -> io::Result<()> {
    println!(rt;
        "pair readings with an answer; without, where neither board has one, only the first, only the second:{}",
        Row::new(
            &[
                0,
                pairs.answered,
                pairs.neither,
                pairs.first_only,
                pairs.second_only
            ],
            1,
            5
        )
    )?;
    println!(rt; "pair readings refused by 12 {}", pairs.refused[12])?;
    println!(rt; "by 19 {}", pairs.refused[19])?;
    println!(rt; "by 27 {}", pairs.refused[27])
}

// The lines on pair answers.
fn write_answers(rt: &impl Print, pairs: &Pairs) -> io::Result<()> {
    let readings = &pairs.readings;
    println!(rt; "pair answers of sound boards {}", readings.answers)?;
    println!(rt; "cuts after a pair answer {}", readings.cuts)?;
    println!(rt;
        "of these, cuts at which it alone guarded the last records {}",
        readings.guards
    )
}

// The lines on how far they lie apart.
fn write_apart(rt: &impl Print, pairs: &Pairs) -> io::Result<()> {
    println!(rt;
        "two votes with pair answers one apart in the first reading only {}",
        pairs.first_apart
    )?;
    println!(rt; "in the second only {}", pairs.second_apart)?;
    println!(rt; "in both {}", pairs.both_apart)
}

pub fn write(rt: &impl Print, pairs: &Pairs) -> io::Result<()> {
    write_readings(rt, pairs)?;
    write_answers(rt, pairs)?;
    write_apart(rt, pairs)
}
