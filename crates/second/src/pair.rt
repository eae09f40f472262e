// Document 02's pair: "two range votes under two agreement numbers", read as one.
use crate::ask;
use second_plan::question::{Question, Refusal};
use second_plan::table;
use second_plan::table::Table;

// "Its reading asks the first party's questions, the second's, then 27 for equal numbers and 12 for
// a plan that is no range."
fn questions(first: &Table, second: &Table) -> Result<(), Question> {
    ask::party(first)?;
    ask::party(second)?;
    if first.at(table::VOTE, table::NUMBER) == second.at(table::VOTE, table::NUMBER) {
        return Err(Question::SameNumbers);
    }
    if !first.is_range() || !second.is_range() {
        return Err(Question::Position);
    }
    Ok(())
}

// The reading of the first vote's table and the second's: it "answers exactly when both have".
pub fn read(first: &Table, second: &Table) -> Result<Option<(i64, i64)>, Refusal> {
    questions(first, second)?;
    Ok(crate::answer(first).zip(crate::answer(second)))
}
