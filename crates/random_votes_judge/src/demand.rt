// Demand 3: an answer is on the plan, at most one edge from each other answer, and on a path between started inputs; and each sound board has one at the end.
use random_votes_state::seats::BOARDS;
use random_votes_state::totals;
use random_votes_state::totals::Totals;
use random_votes_state::vote::{SeatState, Started, Vote, note};

// An answer against demand 3 or against the claims of pairs and counts, or a missing one. (`judge::difference` counts in another field.)
pub fn fault(v: &mut Vote, totals: &mut Totals) {
    let here = v.noted();
    note(&mut totals.faulty_answers, &mut v.firsts.fault, here);
}

// Whether y lies on the path between the inputs of two starts.
fn is_between(v: &Vote, y: usize, a: Started, b: Started) -> bool {
    v.plan.is_between(y, a.position, b.position)
}

// Whether y lies on the path between two started inputs.
fn is_in_hull(v: &Vote, y: usize) -> bool {
    let boards = v.seats.boards();
    boards.iter().any(|a| is_hull_end(v, y, a))
}

// Whether y lies on the path between a board's input and another's.
fn is_hull_end(v: &Vote, y: usize, board: &SeatState) -> bool {
    match board.started {
        None => false,
        Some(a) => v.seats.boards().iter().any(|other| other
            .started
            .is_some_and(|b| is_between(v, y, a, b))),
    }
}

// The greatest distance from y to an answer that a board holds.
fn spread(v: &Vote, y: usize) -> usize {
    let mut most = 0;
    for board in v.seats.boards() {
        if let Some(held) = board.held {
            most = most.max(v.plan.distance(y, held));
        }
    }
    most
}

// An answer is on the plan, at most one edge from each other answer, and between started inputs.
fn is_right(v: &Vote, y: usize) -> bool {
    y <= v.plan.last && spread(v, y) <= 1 && is_in_hull(v, y)
}

// A wrong answer is counted.
pub fn check(v: &mut Vote, totals: &mut Totals, y: usize) {
    if !is_right(v, y) {
        fault(v, totals);
    }
}

// The board holds this answer, or none: it is on the plan, checked when it is new, and never changes, nor goes but in a cut before it was read.
pub fn hold(v: &mut Vote, totals: &mut Totals, b: usize, answer: Option<i64>) {
    let before = v.seats.board(b).held;
    let held = answer.and_then(|reading| v.plan.position(reading));
    if answer.is_some() && held.is_none() {
        fault(v, totals);
    }
    if before == held {
        return;
    }
    if before.is_some() {
        fault(v, totals);
    }
    v.seats.board_mut(b).held = held;
    if let Some(y) = held {
        totals::count(&mut totals.answers);
        check(v, totals, y);
    }
}

// At the end each sound board has an answer, and all are right; how far they lie apart.
fn conclude_board(v: &mut Vote, totals: &mut Totals, b: usize) -> usize {
    let board = v.seats.board(b);
    if !board.is_sound {
        return 0;
    }
    match board.held {
        None => {
            fault(v, totals);
            0
        }
        Some(y) => {
            check(v, totals, y);
            spread(v, y)
        }
    }
}

// A vote in which cuts lost messages is counted, and once more where its end is as demand 3 says: each sound board has an answer.
fn count_through(v: &Vote, totals: &mut Totals, is_right: bool) {
    if v.loses_messages {
        totals::count(&mut totals.cuts.lossy_votes);
        if is_right {
            totals::count(&mut totals.cuts.came_through);
        }
    }
}

// The end of a vote.
pub fn conclude(v: &mut Vote, totals: &mut Totals) {
    let faults = totals.faulty_answers;
    let mut is_split = false;
    for b in 0..BOARDS {
        if 0 < conclude_board(v, totals, b) {
            is_split = true;
        }
    }
    if is_split {
        totals::count(&mut totals.split_votes);
    }
    let is_right = totals.faulty_answers == faults;
    count_through(v, totals, is_right);
}
