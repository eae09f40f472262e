// Document 02's votes by counts, written a second time from its sentences: "Probes give signed 64-bit
// counts; stations vote in steps of g counts". Of it only is proved that it is safe and ends.
#![tactic(auto)]

pub mod rounding;

use rounding::Rounded;
use second::record::Done;
use second::{ask, reading};
use second_plan::question::{Question, Refusal};
use second_plan::table;
use second_plan::table::Table;

// What a start by count gave, and the remainder that it reports.
#[derive(Clone, Copy, Debug, PartialEq, Eq)]
pub struct CountDone {
    pub done: Done,
    pub rest: i64,
}

// "25 when g is odd or out of its limits": 2 to 1,000.
fn ask_size(g: u32) -> Result<(), Question> {
    if g % 2 == 1 || g < 2 || 1000 < g {
        return Err(Question::Step);
    }
    Ok(())
}

// The rounded step's position, if the plan is a range and the step a reading that does not lie below it.
fn position(table: &Table, rounded: &Rounded) -> Option<usize> {
    let base = table.at(table::VOTE, table::BASE);
    reading::above(base, rounded.step).filter(|_| table.is_range())
}

// Start by count: questions 19, 18, 20, 25, 13, 12 and 17.
pub fn start(
    table: &mut Table,
    g: u32,
    count: i64,
    journal: &mut [u8],
    used: usize,
    out: &mut [u8],
) -> Result<CountDone, Refusal> {
    ask::call(table, journal, used, out)?;
    ask_size(g)?;
    let rounded = rounding::round(g, count);
    let position = position(table, &rounded);
    let done = second::start_at(table, position, journal, used, out)?;
    Ok(CountDone {
        done,
        rest: rounded.rest,
    })
}

// The count answer's call, "from step answer y and the start's count c": questions 19, 25 and 12; none
// before an answer.
pub fn read(table: &Table, g: u32, count: i64) -> Result<Option<i64>, Refusal> {
    ask::party(table)?;
    ask_size(g)?;
    ask::on_plan(table, position(table, &rounding::round(g, count)))?;
    Ok(second::answer(table).map(|y| rounding::count_answer(g, y, count)))
}
