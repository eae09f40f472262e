// The last deliveries, in rounds: each board takes each message of the round, in an order of its own, with lies, readings and cuts among them; slow messages are left out a few times. A round in which a cut or a restore came is followed by one of all messages: takes were lost, or forgotten messages handed over again.
use random_votes_seats::{calls, cuts, lies};
use random_votes_state::call::{Call, Origin, Request};
use random_votes_state::message::Message;
use random_votes_state::seats::Seat;
use random_votes_state::totals::Totals;
use random_votes_state::vote::{Order, Vote};

// A prime above a number: going on by a fixed stride visits each number below it once.
fn prime_above(x: usize) -> usize {
    match x {
        0..17 => 17,
        17..61 => 61,
        61..251 => 251,
        251..1021 => 1021,
        _ => 4099,
    }
}

// The prime of this round.
fn prime(v: &Vote) -> usize {
    prime_above(v.round.end.saturating_sub(v.round.first))
}

// How many turns the round has: 16 seats for each number below the prime.
pub fn turns(v: &Vote) -> usize {
    prime(v).saturating_mul(16)
}

// A round of the messages from the `from`-th on, which each board takes in an order of its own.
pub fn begin(v: &mut Vote, from: usize) {
    v.round.first = from;
    v.round.end = v.pool.len();
    v.round.is_cut = false;
    v.turn = 0;
    let p = prime(v);
    for order in v.round.orders.iter_mut() {
        let stride = v.random.between(1, p.saturating_sub(1));
        let cursor = v.random.below(p);
        *order = Order { cursor, stride };
    }
}

// The round is followed by another: of all messages after a cut or a restore; of those that came since; or of all, for those left out. Says whether it is.
pub fn follow(v: &mut Vote) -> bool {
    let end = v.round.end;
    if v.round.is_cut {
        begin(v, 0);
        return true;
    }
    if end < v.pool.len() {
        begin(v, end);
        return true;
    }
    if v.round.leaves_out {
        v.patience = v.patience.saturating_sub(1);
        v.round.leaves_out = false;
        begin(v, 0);
        return true;
    }
    false
}

// The board's next message of the round, or past them.
fn advance(v: &mut Vote, b: usize) -> Option<usize> {
    let p = prime(v);
    let order = v.round.orders.get_mut(b)?;
    let at = order.cursor;
    let next = at.saturating_add(order.stride);
    order.cursor = if next < p { next } else { next - p };
    Some(v.round.first.saturating_add(at)).filter(|i| *i < v.round.end)
}

// The turn comes again.
fn again(v: &mut Vote) {
    v.turn = v.turn.saturating_sub(1);
}

// Whether a message to a board is left out now.
fn waits(v: &mut Vote, sender: usize, message: &Message, b: usize) -> bool {
    0 < v.patience && lies::is_slow(v, sender, message, b) && v.random.below(8) != 0
}

// The board takes its next message, if there is one that is not forgotten, unless it waits; now and then also one that it took already.
fn take_next(v: &mut Vote, b: usize) -> Option<Call> {
    let i = advance(v, b)?;
    let handed = v.pool.get(i)?;
    if handed.is_taken(b) && v.random.below(16) != 0 {
        return None;
    }
    let sender = handed.sender;
    let message = Message::from(handed.message.as_slice());
    if waits(v, sender, &message, b) {
        v.round.leaves_out = true;
        return None;
    }
    Some(calls::take(v, Seat::Board(b), sender, message, Origin::Pool(i)))
}

// A board that is down is restored, unless another cut comes.
fn raise(v: &mut Vote, totals: &mut Totals, b: usize) -> Option<Call> {
    again(v);
    if cuts::comes(v, 6) {
        cuts::cut_again(v, totals, b);
        return None;
    }
    Some(calls::restore(v, b))
}

// A turn of a board that is up and started.
fn go_on(v: &mut Vote, b: usize) -> Option<Call> {
    let how = v.random.below(64);
    if how == 63 {
        again(v);
        return Some(v.call(Seat::Board(b), Request::Read));
    }
    if how < v.lies / 8 {
        again(v);
        return lies::take(v, b);
    }
    take_next(v, b)
}

// A turn of the last deliveries.
pub fn deliver(v: &mut Vote, totals: &mut Totals, turn: usize) -> Option<Call> {
    let b = turn % 16;
    let seat = v.seats.board(b);
    if !seat.is_sound {
        return None;
    }
    if !seat.is_up() {
        return raise(v, totals, b);
    }
    if seat.started.is_none() {
        again(v);
        return Some(calls::start(v, Seat::Board(b)));
    }
    go_on(v, b)
}

// A board's answer is read, twice in all; between, a board that a cut took down is restored.
pub fn read_last(v: &mut Vote, totals: &mut Totals, turn: usize) -> Option<Call> {
    let b = turn % 16;
    let seat = v.seats.board(b);
    if !seat.is_sound {
        return None;
    }
    if !seat.is_up() {
        return raise(v, totals, b);
    }
    Some(v.call(Seat::Board(b), Request::Read))
}
