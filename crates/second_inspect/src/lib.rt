// Question 19, written from document 01's sentence for the second implementation: is the record one
// "whose settings pass 1 to 3, whose plan part a plan reading gives, whose sender sets name only
// boards below n, whose outputs are on the plan, whose entered levels run from 0 without a gap,
// level 0 over the whole plan and each next over a side of the one before, with every position in
// its level's component and every result value at most d"? While it asks, a lent table of the second
// implementation is filled with what the record tells. Of it only is proved that it is safe and
// ends.
#![tactic(auto)]

pub mod entry;
pub mod fill;
pub mod part;

use second_plan::question::Question;
use second_plan::table::Table;
use second_sheet::sheet;
use second_sheet::sheet::Sheet;

// The levels in order: each is entered if the record says so, asked, and filled.
fn levels_pass(sheet: &Sheet, table: &mut Table) -> bool {
    for level in 0..sheet::LEVELS {
        if !entry::level_passes(sheet, table, level) {
            return false;
        }
    }
    true
}

// The settings, the plan, the senders and the levels are asked and filled.
fn passes(sheet: &Sheet, table: &mut Table) -> bool {
    part::read(sheet, table)
        && part::comes_back(sheet)
        && fill::sets_pass(sheet, table)
        && levels_pass(sheet, table)
}

// Question 19 of a record: where it passes the table is filled, and else it is empty.
pub fn inspect(sheet: &Sheet, table: &mut Table) -> Result<(), Question> {
    if passes(sheet, table) {
        return Ok(());
    }
    *table = Table::new();
    Err(Question::Party)
}
