// Calls of a seat, with what is lent to them.
use random_votes_state::call::{Call, Origin, Request, Start, Take};
use random_votes_state::message::Message;
use random_votes_state::seats::Seat;
use random_votes_state::vote::Vote;
use random_votes_state::{call, random};

// The take of a message of a sender.
pub fn take(v: &Vote, seat: Seat, sender: usize, message: Message, origin: Origin) -> Call {
    v.call(
        seat,
        Request::Take(Take {
            sender,
            message,
            origin,
        }),
    )
}

// What is lent to the call: now and then the journal, where it may be, or the outgoing buffer is too short. Where there is no call the same numbers are drawn: the
// program's output depends on them.
pub fn lend(v: &mut Vote, call: Option<Call>, may_shorten: bool) -> Option<Call> {
    let used = call.as_ref().map_or(0, |call| call.used);
    let room = if may_shorten {
        Some(call::room(&mut v.random, used))
    } else {
        None
    };
    let out_room = call::out_room(&mut v.random);
    let mut call = call?;
    call.out_room = out_room;
    if let Some(room) = room {
        call.set_room(room);
    }
    Some(call)
}

// The board's set-up.
pub fn set_up(v: &Vote, b: usize) -> Call {
    v.call(Seat::Board(b), Request::SetUp(v.settings(b)))
}

// From what a cut left, or all used bytes.
pub fn restore(v: &Vote, b: usize) -> Call {
    let seat = v.seats.board(b);
    let mut call = v.call(Seat::Board(b), Request::Restore(v.settings(b)));
    call.set_room(if seat.is_up() { seat.used } else { seat.left });
    call
}

// An input that is not on the plan.
fn off_plan(v: &mut Vote) -> i64 {
    match v.random.below(6) {
        0 => v.plan.low.saturating_sub(1),
        1 => v.plan.reading(v.plan.last).saturating_add(1),
        2 => random::reading(&mut v.random, -4294967296, 4294967295),
        _ if v.random.below(2) == 0 => i64::MIN,
        _ => i64::MAX,
    }
}

// A position on the plan, often near the others, or where most are in a divided vote.
fn position(v: &mut Vote) -> usize {
    let positions = v.plan.last.saturating_add(1);
    if v.is_divided {
        if v.random.below(3) != 0 {
            return v.inputs.near;
        }
        return v.random.below(positions);
    }
    let p = v.inputs.near.saturating_add(v.random.below(v.inputs.apart));
    if v.plan.last < p {
        return v.random.below(positions);
    }
    p
}

// A start by an input.
fn start_by(v: &Vote, seat: Seat, input: i64) -> Call {
    v.call(seat, Request::Start(Start { input, count: None }))
}

// A start on the plan.
pub fn start(v: &mut Vote, seat: Seat) -> Call {
    let p = position(v);
    start_by(v, seat, v.plan.reading(p))
}

// A start, now and then off the plan.
pub fn start_anyhow(v: &mut Vote, seat: Seat) -> Call {
    let p = position(v);
    let input = if v.random.once_in(8) {
        off_plan(v)
    } else {
        v.plan.reading(p)
    };
    start_by(v, seat, input)
}
