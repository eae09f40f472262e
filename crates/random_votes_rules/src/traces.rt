// What rules leave in a level's record.
use level::Level;

// None, as a value.
const NONE: u8 = 16;

// The library's record has NOT_YET and NO_OUTPUT for what is not there yet (level::Level says why).
// 1 if a value is there.
fn there(value: u8) -> usize {
    usize::from(value != level::NOT_YET)
}

// How many second echoes the level made.
pub fn echoes(l: &Level) -> usize {
    l.echoed.iter().filter(|is_echoed| **is_echoed).count()
}

// Rules are numbers: the output prints their counts by number.
// How often rule 1 to 8 or 11 was applied. The first result is echoed by rule 5, other second echoes are rule 6's.
pub fn of(l: &Level, rule: usize) -> usize {
    match rule {
        1 => usize::from(l.echoed_port),
        2 => usize::from(l.echoed_none),
        3 => there(l.proposal),
        4 | 5 => there(l.first),
        6 => echoes(l).saturating_sub(there(l.first)),
        7 => there(l.second_proposal),
        8 => there(l.result),
        11 => usize::from(l.told_centre),
        _ => 0,
    }
}

// Has the level a result other than none?
pub fn is_graded(l: &Level) -> bool {
    l.result != NONE && l.result != level::NOT_YET
}

// The result's grade.
pub fn grade(l: &Level) -> usize {
    match (l.result, l.sure) {
        (NONE, _) => 0,
        (_, false) => 1,
        (_, true) => 2,
    }
}

// Has the level an output?
pub fn has_output(l: &Level) -> bool {
    l.output != level::NO_OUTPUT
}

// The rule that gave the level's output in the last call: by the result or, where that is a side or not there, whether it is the next level's output, which is never the centre. Rules 9 and 11 come before rule 13, and only a message changes what rules 1 to 8 give.
pub fn output_rule(l: &Level, next: &Level) -> usize {
    match l.result {
        0 => 9,
        NONE => 11,
        _ if l.output == next.output => 14,
        _ => 13,
    }
}

// The rule that entered the level after this one.
pub fn entry_rule(l: &Level) -> usize {
    match l.result {
        NONE => 12,
        _ => 10,
    }
}
