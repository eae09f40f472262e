// "whose outputs are on the plan, whose entered levels run from 0 without a gap, level 0 over the
// whole plan and each next over a side of the one before, with every position in its level's
// component and every result value at most d".
use crate::fill;
use second_plan::table;
use second_plan::table::Table;
use second_rules::effect::Entry;
use second_rules::levels;
use second_sheet::sheet;
use second_sheet::sheet::Sheet;

// d, where the level is entered and has one: a component of one or two positions has none.
fn degree(t: &Table, level: usize) -> Option<usize> {
    if t.is_set(level, table::SMALL) || !t.is_set(level, table::ENTERED) {
        return None;
    }
    Some(t.at(level, table::DEGREE))
}

// Whether a position is in the level's component.
fn is_inside(t: &Table, level: usize, position: usize) -> bool {
    if t.is_range() {
        t.at(level, table::LOW) <= position && position <= t.at(level, table::HIGH)
    } else {
        t.is_inside(level, position)
    }
}

// Whether a level has this side.
fn has_side(t: &Table, level: usize, side: usize) -> bool {
    degree(t, level).is_some_and(|d| 1 <= side && side <= d)
}

// The level is entered: level 0 over the whole plan, for which side 0 stands, a next one over a
// side of the one before. Whether that is so.
fn enter(t: &mut Table, level: usize, entry: Entry) -> bool {
    let Some(before) = level.checked_sub(1) else {
        levels::open(t, 0, entry.position);
        return entry.side == 0;
    };
    if !has_side(t, before, entry.side) {
        return false;
    }
    levels::enter(t, before, entry);
    true
}

// The entry of a level, if it is entered.
fn entry_passes(sheet: &Sheet, t: &mut Table, level: usize) -> bool {
    if sheet.at(level, sheet::ENTERED) == 0 {
        return true;
    }
    let entry = Entry {
        side: sheet.at(level, sheet::SIDE),
        position: sheet.at(level, sheet::POSITION),
    };
    enter(t, level, entry) && is_inside(t, level, entry.position)
}

// Whether an output is on the plan or not there yet.
// A sheet holds numbers, NOT_YET and NO_OUTPUT too, so that a random change is a number at any place
// (second_sheet).
fn output_passes(t: &Table, output: usize) -> bool {
    output == sheet::NO_OUTPUT || output <= t.at(table::VOTE, table::LAST)
}

// Whether a result is a value of at most d, none, or not there yet; where there is no d it is not
// there.
fn value_passes(t: &Table, level: usize, value: usize) -> bool {
    value == sheet::NOT_YET || degree(t, level).is_some_and(|d| value == sheet::NONE || value <= d)
}

// The output and both results of a level.
fn values_pass(sheet: &Sheet, t: &Table, level: usize) -> bool {
    value_passes(t, level, sheet.at(level, sheet::FIRST))
        && value_passes(t, level, sheet.at(level, sheet::RESULT))
        && output_passes(t, sheet.at(level, sheet::OUTPUT))
}

// A level, after those before it: it is entered, asked and filled.
pub fn level_passes(sheet: &Sheet, t: &mut Table, level: usize) -> bool {
    if !entry_passes(sheet, t, level) || !values_pass(sheet, t, level) {
        return false;
    }
    fill::keep_level(sheet, t, level);
    true
}
