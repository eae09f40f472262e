// Document 02's claim: "Where sound boards start only by counts at one g, their count answers are at most 2g apart and between the least and greatest sound counts."
use crate::read::Given;
use random_votes_judge::{demand, judge};
use random_votes_state::seats::BOARDS;
use random_votes_state::span::Span;
use random_votes_state::totals::Totals;
use random_votes_state::vote::Vote;
use random_votes_state::{span, totals};

// Whether the count lies between the least and the greatest sound counts, of starts that were not lost.
fn is_between(v: &Vote, a: i64) -> bool {
    let mut is_above = false;
    let mut is_below = false;
    for b in 0..BOARDS {
        if v.seats.board(b).started.is_some() {
            let count = *v.counts.board(b);
            is_above = is_above || count <= a;
            is_below = is_below || a <= count;
        }
    }
    is_above && is_below
}

// How far count answers lie apart.
fn apart(answers: Span<i64>) -> u64 {
    answers.greatest.abs_diff(answers.least)
}

// A count answer is one of the vote's: they are at most two steps apart, and it lies between counts.
fn check(v: &mut Vote, totals: &mut Totals, a: i64) {
    let answers = span::widened(v.count_answers, a);
    v.count_answers = Some(answers);
    if u64::from(v.size.unwrap_or(0)).saturating_mul(2) < apart(answers) {
        demand::fault(v, totals);
    }
    if !is_between(v, a) {
        demand::fault(v, totals);
    }
}

// A count answer never changes, and is there only where the board has an answer.
fn hold(v: &mut Vote, totals: &mut Totals, b: usize, a: i64) {
    let seat = v.seats.board_mut(b);
    let changes = seat.count_read.is_some_and(|read| read != a);
    let is_held = seat.held.is_some();
    seat.count_read = Some(a);
    if changes {
        demand::fault(v, totals);
    }
    if !is_held {
        demand::fault(v, totals);
    }
}

// There is no count answer only where the board has no answer, and none was read before.
fn keep_none(v: &mut Vote, totals: &mut Totals, b: usize) {
    let seat = v.seats.board(b);
    if seat.held.is_some() || seat.count_read.is_some() {
        demand::fault(v, totals);
    }
}

// A count reading of a sound board is accepted. An answer guards the records, as that of any reading.
pub fn keep(v: &mut Vote, totals: &mut Totals, b: usize, given: Given) {
    match given {
        Err(_) => demand::fault(v, totals),
        Ok(None) => keep_none(v, totals, b),
        Ok(Some(a)) => {
            hold(v, totals, b, a);
            check(v, totals, a);
            totals::count(&mut totals.counts.readings.answers);
            let alone = judge::keep_other_reading(v, totals, b);
            totals.counts.readings.count_cut(alone);
        }
    }
}

// How far that is, in steps: not, at most one, less than two, two.
fn steps(apart: u64, size: u32) -> usize {
    let step = u64::from(size);
    match apart {
        0 => 0,
        _ if apart <= step => 1,
        _ if apart < step.saturating_mul(2) => 2,
        _ => 3,
    }
}

// The end of a vote: its count answers lie between the counts of starts that were not lost.
pub fn conclude(v: &mut Vote, totals: &mut Totals) {
    let Some(answers) = v.count_answers else {
        return;
    };
    if !is_between(v, answers.least) || !is_between(v, answers.greatest) {
        demand::fault(v, totals);
    }
    let steps = steps(apart(answers), v.size.unwrap_or(0));
    totals::count_at(&mut totals.counts.apart, steps);
}
