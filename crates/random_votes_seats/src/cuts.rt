// Cuts of the power.
use random_votes_state::totals;
use random_votes_state::totals::Totals;
use random_votes_state::vote::{Phase, Stage, Vote};

// The wire module forgets what the board handed over; or that is on its way already, and arrives late.
fn lose_queue(v: &mut Vote, totals: &mut Totals, b: usize) {
    if v.random.once_in(2) {
        let sound = v.sound();
        let lost = v.pool.forget(b, &sound);
        totals::grow(&mut totals.cuts.messages_lost, lost);
        if 0 < lost {
            v.loses_messages = true;
        }
        totals::count(&mut totals.cuts.queues_lost);
    }
}

// A cut leaves the guarded bytes and some more of the first `used`; a start whose record they do not hold is lost, and an answer that was not read is as if not held.
fn leave(v: &mut Vote, totals: &mut Totals, b: usize, used: usize) {
    let seat = v.seats.board_mut(b);
    let left = v.random.between(seat.guarded, used);
    seat.left = left;
    seat.stage = Stage::Down;
    seat.held = seat.read;
    if seat.started.is_some_and(|started| left < started.end) {
        seat.started = None;
        totals::count(&mut totals.cuts.starts_lost);
    }
    v.round.is_cut = true;
    v.pool.lose_taken(b, left);
    lose_queue(v, totals, b);
    totals::count(&mut totals.cuts.all);
}

// A cut of a board that is up.
pub fn cut(v: &mut Vote, totals: &mut Totals, b: usize) {
    let used = v.seats.board(b).used;
    leave(v, totals, b, used);
}

// Another cut of a board that is down.
pub fn cut_again(v: &mut Vote, totals: &mut Totals, b: usize) {
    let used = v.seats.board(b).left;
    leave(v, totals, b, used);
    totals::count(&mut totals.cuts.while_down);
}

// Whether a cut comes, once in `often` times: any number of times among random steps, a few times later.
pub fn comes(v: &mut Vote, often: usize) -> bool {
    if !v.random.once_in(often) {
        return false;
    }
    if v.phase == Phase::Playing {
        return true;
    }
    if v.cuts_left == 0 {
        return false;
    }
    v.cuts_left -= 1;
    true
}
