// Which rules a start or take applied, read off the library's party before and after it: each rule leaves its own mark in a level's record, once, but for rule 6. And how many messages its levels made.
#![tactic(auto)]

pub mod messages;
pub mod traces;

use level::Level;
use party::Party;
use random_votes_state::seats::Seat;
use random_votes_state::totals;
use random_votes_state::totals::{Rules, Totals};
use random_votes_state::vote::Vote;

// How often each rule was applied, by its number.
pub type Applied = [usize; 15];

// A level's record before and after a call.
#[derive(Clone, Copy)]
pub struct Change<'a> {
    pub old: &'a Level,
    pub new: &'a Level,
}

// Rules 1 to 8 and 11 at a level.
fn count_marks(applied: &mut Applied, level: Change) {
    for (rule, count) in applied.iter_mut().enumerate() {
        let more = traces::of(level.new, rule).saturating_sub(traces::of(level.old, rule));
        totals::grow(count, more);
    }
}

// The rule that gave the output, but for rule 11, which is counted by its mark.
fn count_output(applied: &mut Applied, level: Change, next: Change) {
    if traces::has_output(level.old) || !traces::has_output(level.new) {
        return;
    }
    let rule = traces::output_rule(level.new, next.new);
    if rule != 11 {
        totals::count_at(applied, rule);
    }
}

// The rule that entered the next level.
fn count_entry(applied: &mut Applied, level: Change, next: Change) {
    if !next.old.entered && next.new.entered {
        totals::count_at(applied, traces::entry_rule(level.new));
    }
}

// The rules at a level that sends, which is one whose port was echoed, and has a next one.
fn count_level(applied: &mut Applied, level: Change, next: Change) {
    if level.new.echoed_port {
        count_marks(applied, level);
        count_output(applied, level, next);
        count_entry(applied, level, next);
    }
}

// Whether a board entered the level, and its result by its grade.
fn count_reach(rules: &mut Rules, i: usize, level: Change) {
    if !level.old.entered && level.new.entered {
        totals::count_at(&mut rules.entered, i);
    }
    if traces::of(level.old, 8) < traces::of(level.new, 8) {
        totals::count_at(&mut rules.grades, traces::grade(level.new));
    }
}

// The change of level i, if there is one.
fn change_of<'a>(before: &'a Party, after: &'a Party, i: usize) -> Option<Change<'a>> {
    match (before.levels.get(i), after.levels.get(i)) {
        (Some(old), Some(new)) => Some(Change { old, new }),
        _ => None,
    }
}

// The rules applied at all levels of a seat; of a board what it reached, of a sound one its messages.
fn count_levels(
    v: &Vote,
    totals: &mut Totals,
    before: &Party,
    after: &Party,
    seat: Seat,
) -> Applied {
    let mut applied = [0; 15];
    for i in 0..before.levels.len() {
        let Some(level) = change_of(before, after, i) else {
            continue;
        };
        let next = change_of(before, after, i + 1);
        if let Some(next) = next {
            count_level(&mut applied, level, next);
        }
        if let Seat::Board(b) = seat {
            count_reach(&mut totals.rules, i, level);
            if v.is_sound(b) {
                messages::count(v, totals, i, level, next);
            }
        }
    }
    applied
}

// The call's rules are added to a row; how many they were.
fn book(row: &mut [usize; 16], applied: &Applied) -> usize {
    let mut sum = 0usize;
    for (total, count) in row.iter_mut().zip(applied) {
        totals::grow(total, *count);
        sum = sum.saturating_add(*count);
    }
    sum
}

// The rules of an accepted start or take of a seat, by its party before and after it; says whether they are as many as the call reported.
pub fn count(
    v: &Vote,
    totals: &mut Totals,
    before: &Party,
    after: &Party,
    seat: Seat,
    reported: usize,
) -> bool {
    if reported == 0 {
        return true;
    }
    let applied = count_levels(v, totals, before, after, seat);
    let row = match seat {
        Seat::Board(_) => &mut totals.rules.boards,
        Seat::Bench => &mut totals.rules.bench,
    };
    book(row, &applied) == reported
}
