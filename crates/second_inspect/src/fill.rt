// "whose sender sets name only boards below n"; and what is kept of a record without a question:
// its flags and proposals.
use second_plan::table::Table;
use second_plan::{bits, table};
use second_sheet::sheet;
use second_sheet::sheet::Sheet;
use second_wire::wire;
use second_wire::wire::{Kind, Message};

// The message is kept of the boards of a set; whether all of them may be there.
fn set_passes(t: &mut Table, set: usize, message: &Message) -> bool {
    for b in 0..wire::SENDERS {
        if bits::has(set, b) {
            t.hear(message, b);
            if t.at(table::VOTE, table::BOARDS) <= b {
                return false;
            }
        }
    }
    true
}

// The sets of a level and kind, one for each value.
fn kind_passes(sheet: &Sheet, t: &mut Table, level: usize, kind: Kind) -> bool {
    let first = sheet::SETS.saturating_add(kind.number().saturating_mul(sheet::VALUES));
    let number = t.at(table::VOTE, table::NUMBER);
    for value in 0..sheet::VALUES {
        let message = Message {
            number,
            level,
            kind,
            value,
        };
        let set = sheet.at(level, first.saturating_add(value));
        if !set_passes(t, set, &message) {
            return false;
        }
    }
    true
}

// All sets of all levels.
pub fn sets_pass(sheet: &Sheet, t: &mut Table) -> bool {
    for level in 0..sheet::LEVELS {
        for kind in Kind::ALL {
            if !kind_passes(sheet, t, level, kind) {
                return false;
            }
        }
    }
    true
}

// A number of the record goes to the table as a flag: whether it is another than `absent`.
fn keep_flag(sheet: &Sheet, t: &mut Table, level: usize, from: usize, to: usize, absent: usize) {
    t.set(level, to, usize::from(sheet.at(level, from) != absent));
}

// A number of the record goes to the table, if it is another than `absent`.
fn keep_value(sheet: &Sheet, t: &mut Table, level: usize, from: usize, to: usize, absent: usize) {
    let value = sheet.at(level, from);
    t.put(level, to, Some(value).filter(|x| *x != absent));
}

// What was made at a level.
fn keep_made(sheet: &Sheet, t: &mut Table, level: usize) {
    keep_flag(sheet, t, level, sheet::ECHOED_PORT, table::ECHOED_PORT, 0);
    keep_flag(sheet, t, level, sheet::ECHOED_NONE, table::ECHOED_NONE, 0);
    keep_flag(
        sheet,
        t,
        level,
        sheet::PROPOSAL,
        table::PROPOSED,
        sheet::NOT_YET,
    );
    keep_flag(
        sheet,
        t,
        level,
        sheet::SECOND_PROPOSAL,
        table::PROPOSED_AGAIN,
        sheet::NOT_YET,
    );
    keep_flag(sheet, t, level, sheet::TOLD_CENTRE, table::SAID_CENTRE, 0);
}

// Which values were second-echoed.
fn keep_echoes(sheet: &Sheet, t: &mut Table, level: usize) {
    for w in 0..sheet::VALUES {
        keep_flag(
            sheet,
            t,
            level,
            sheet::ECHOED + w,
            table::ECHOED_AGAIN + w,
            0,
        );
    }
}

// The grade of the second result: 0 of none, 2 where it is sure.
fn grade(sheet: &Sheet, level: usize) -> usize {
    if sheet.at(level, sheet::RESULT) < sheet::NONE {
        sheet.at(level, sheet::SURE).saturating_add(1)
    } else {
        0
    }
}

// The two results.
fn keep_results(sheet: &Sheet, t: &mut Table, level: usize) {
    keep_value(sheet, t, level, sheet::FIRST, table::FIRST, sheet::NOT_YET);
    keep_value(
        sheet,
        t,
        level,
        sheet::RESULT,
        table::SECOND,
        sheet::NOT_YET,
    );
    t.set(level, table::GRADE, grade(sheet, level));
}

// All of a level but its senders and its entry.
pub fn keep_level(sheet: &Sheet, t: &mut Table, level: usize) {
    keep_made(sheet, t, level);
    keep_echoes(sheet, t, level);
    keep_results(sheet, t, level);
    keep_value(
        sheet,
        t,
        level,
        sheet::OUTPUT,
        table::OUTPUT,
        sheet::NO_OUTPUT,
    );
}
