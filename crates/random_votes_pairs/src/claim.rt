// Document 02's claim of pairs, on boards that are sound and up in both votes: "Answers are at most 1 apart in each reading, and each reading lies between sound ones".
use crate::read::Given;
use random_votes_judge::{demand, judge};
use random_votes_state::seats::Seat;
use random_votes_state::span::Span;
use random_votes_state::totals::Totals;
use random_votes_state::vote::Vote;
use random_votes_state::{span, totals};

// The number by which a pair of sound boards is refused, if it is.
fn expected(first: &Vote, second: &Vote) -> Option<usize> {
    if first.agreement == second.agreement {
        return Some(27);
    }
    if !first.plan.is_range() || !second.plan.is_range() {
        return Some(12);
    }
    None
}

// How far the vote's pair answers lie apart.
fn apart(v: &Vote) -> usize {
    match v.pair_answers {
        None => 0,
        Some(Span { least, greatest }) => greatest.saturating_sub(least),
    }
}

// A pair answer at a position is kept among those of the vote; they are at most one apart.
fn widen(v: &mut Vote, totals: &mut Totals, position: usize) {
    v.pair_answers = Some(span::widened(v.pair_answers, position));
    if 1 < apart(v) {
        demand::fault(v, totals);
    }
}

// One reading of a pair answer: it is the board's answer, near those of the others and between inputs.
fn keep_reading(v: &mut Vote, totals: &mut Totals, b: usize, reading: i64) {
    if v.seats.board(b).held.is_none() {
        demand::fault(v, totals);
    }
    demand::hold(v, totals, b, Some(reading));
    if let Some(position) = v.plan.position(reading) {
        demand::check(v, totals, position);
        widen(v, totals, position);
    }
    let alone = judge::keep_other_reading(v, totals, b);
    totals.pairs.readings.count_cut(alone);
}

// There is no pair answer only where one of the boards has none; that guards nothing.
fn keep_none(first: &mut Vote, second: &Vote, totals: &mut Totals, b: usize) {
    if first.seats.board(b).held.is_some() && second.seats.board(b).held.is_some() {
        demand::fault(first, totals);
    }
}

// The first vote's answer and the second's.
fn keep_answers(
    first: &mut Vote,
    second: &mut Vote,
    totals: &mut Totals,
    b: usize,
    (one, other): (i64, i64),
) {
    keep_reading(first, totals, b, one);
    keep_reading(second, totals, b, other);
    totals::count(&mut totals.pairs.readings.answers);
}

// What a pair reading of sound boards gave.
fn keep_sound(first: &mut Vote, second: &mut Vote, totals: &mut Totals, b: usize, given: Given) {
    let refused = given.err().map(|refused| refused.number);
    if refused != expected(first, second) {
        demand::fault(first, totals);
    }
    match given {
        Err(_) => (),
        Ok(None) => keep_none(first, second, totals, b),
        Ok(Some(readings)) => keep_answers(first, second, totals, b, readings),
    }
}

// The same of any seat; only sound boards and the bench are ever up.
pub fn keep(first: &mut Vote, second: &mut Vote, totals: &mut Totals, seat: Seat, given: Given) {
    if let Seat::Board(b) = seat {
        if first.seats.board(b).is_up() && second.seats.board(b).is_up() {
            keep_sound(first, second, totals, b, given);
        }
    }
}

// The end of two votes: in which of the readings their pair answers are one apart.
pub fn conclude(first: &Vote, second: &Vote, totals: &mut Totals) {
    let pairs = &mut totals.pairs;
    match (0 < apart(first), 0 < apart(second)) {
        (true, false) => totals::count(&mut pairs.first_apart),
        (false, true) => totals::count(&mut pairs.second_apart),
        (true, true) => totals::count(&mut pairs.both_apart),
        (false, false) => (),
    }
}
