// The next call of a vote.
use crate::{bench, deliver};
use random_votes_seats::{bad, calls, cuts, lies};
use random_votes_state::both::Journals;
use random_votes_state::call::{Call, Origin, Request};
use random_votes_state::message::Message;
use random_votes_state::seats::Seat;
use random_votes_state::totals::Totals;
use random_votes_state::vote::{Phase, Vote};

// One of the messages handed over, or of the last twelve.
fn some_pooled(v: &mut Vote) -> usize {
    let pooled = v.pool.len();
    if v.random.once_in(2) {
        return v
            .random
            .between(pooled.saturating_sub(12), pooled.saturating_sub(1));
    }
    v.random.below(pooled)
}

// The take of a message handed over, unless it is forgotten or comes slowly.
fn take_pooled(v: &mut Vote, b: usize) -> Option<Call> {
    if v.pool.is_empty() {
        return None;
    }
    let i = some_pooled(v);
    let handed = v.pool.get(i)?;
    let sender = handed.sender;
    let message = Message::from(handed.message.as_slice());
    if lies::is_slow(v, sender, &message, b) && v.random.below(24) != 0 {
        return None;
    }
    Some(calls::take(v, Seat::Board(b), sender, message, Origin::Pool(i)))
}

// A start, take, reading or restore of a board that is up.
fn play_up(v: &mut Vote, b: usize) -> Option<Call> {
    let how = v.random.below(128);
    let is_started = v.seats.board(b).started.is_some();
    match how {
        0 | 1 => Some(calls::start_anyhow(v, Seat::Board(b))),
        2..12 if !is_started => Some(calls::start_anyhow(v, Seat::Board(b))),
        2..6 => Some(v.call(Seat::Board(b), Request::Read)),
        6 => Some(calls::restore(v, b)),
        7..16 => Some(bad::take(v, b)),
        _ if how < v.lies.saturating_add(16) => lies::take(v, b),
        _ => take_pooled(v, b),
    }
}

// The same with what is lent to it. Where there is no call, numbers are drawn as after the last one: the program's output depends on them.
fn play_lent(v: &mut Vote, b: usize) -> Option<Call> {
    let call = play_up(v, b);
    let is_restore = match &call {
        Some(call) => call.request.is_restore(),
        None => v.was_restore,
    };
    calls::lend(v, call, !is_restore)
}

// A step of a board: a call if it is up, a restore or another cut if it is down.
fn play_board(v: &mut Vote, totals: &mut Totals, b: usize) -> Option<Call> {
    if !v.is_sound(b) {
        return None;
    }
    if v.seats.board(b).is_up() {
        return play_lent(v, b);
    }
    if cuts::comes(v, 6) {
        cuts::cut_again(v, totals, b);
        return None;
    }
    let mut call = calls::restore(v, b);
    call.lend_out(&mut v.random);
    Some(call)
}

// A random step of a board or of the bench.
fn play(v: &mut Vote, totals: &mut Totals, journals: &mut Journals) -> Option<Call> {
    let b = v.random.below(v.boards);
    if v.is_flooded {
        if v.random.once_in(4) {
            return play_board(v, totals, b);
        }
        return bench::call(v);
    }
    if v.random.once_in(16) {
        return bench::any_call(v, journals, b);
    }
    play_board(v, totals, b)
}

// A board's set-up; after the last board the bench's, as a board 0.
fn set_up(v: &Vote, b: usize) -> Option<Call> {
    if b == v.boards {
        return Some(v.call(Seat::Bench, Request::SetUp(v.settings(0))));
    }
    if v.is_sound(b) {
        return Some(calls::set_up(v, b));
    }
    None
}

// How many turns the vote's phase has.
fn turns(v: &Vote) -> usize {
    match v.phase {
        Phase::SettingUp => v.boards.saturating_add(1),
        Phase::Playing => v.steps,
        Phase::Delivering => deliver::turns(v),
        Phase::Reading => 32,
        Phase::Done => 0,
    }
}

// The call of a turn of the phase, if there is one.
fn step(v: &mut Vote, totals: &mut Totals, turn: usize, journals: &mut Journals) -> Option<Call> {
    match v.phase {
        Phase::SettingUp => set_up(v, turn),
        Phase::Playing => play(v, totals, journals),
        Phase::Delivering => deliver::deliver(v, totals, turn),
        Phase::Reading => deliver::read_last(v, totals, turn),
        Phase::Done => None,
    }
}

// The next phase, or the next round of deliveries.
fn go_on(v: &mut Vote) {
    let phase = v.phase;
    let next = match phase {
        Phase::SettingUp => Phase::Playing,
        Phase::Playing => {
            deliver::begin(v, 0);
            Phase::Delivering
        }
        Phase::Delivering if deliver::follow(v) => return,
        Phase::Delivering => Phase::Reading,
        Phase::Reading | Phase::Done => Phase::Done,
    };
    v.turn = 0;
    v.phase = next;
}

// The next turn's call, if it has one.
fn next(v: &mut Vote, totals: &mut Totals, journals: &mut Journals) -> Option<Call> {
    let turn = v.turn;
    if turn < turns(v) {
        v.turn = turn + 1;
        return step(v, totals, turn, journals);
    }
    go_on(v);
    None
}

// The next call, or none at the end of the vote.
pub fn seek(v: &mut Vote, totals: &mut Totals, journals: &mut Journals) -> Option<Call> {
    for _ in 0..100000 {
        if v.phase == Phase::Done {
            break;
        }
        let call = next(v, totals, journals);
        if call.is_some() {
            return call;
        }
    }
    None
}
