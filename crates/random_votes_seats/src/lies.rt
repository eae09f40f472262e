// What faulty boards say.
use crate::calls;
use random_votes_state::call::{Call, Origin};
use random_votes_state::message::{Fields, Kind, Message, NONE, Said};
use random_votes_state::seats::{BOARDS, Seat};
use random_votes_state::vote::{Vote, key};
use random_votes_state::{message, random};

// Whether a message comes slowly to a board: by its link, or by its kind, those of none apart.
pub fn is_slow(v: &Vote, sender: usize, message: &Message, b: usize) -> bool {
    let fields = Fields::of(message.as_slice(), v.number_length());
    let kind = fields.kind % 8;
    let row = if fields.value == NONE { kind + 8 } else { kind };
    is_set(&v.slow.links, sender % 16, b) || is_set(&v.slow.kinds, row, b)
}

// Whether a board is marked in a row.
fn is_set(rows: &[[bool; BOARDS]; 16], row: usize, b: usize) -> bool {
    rows.get(row)
        .and_then(|row| row.get(b))
        .copied()
        .unwrap_or(false)
}

// The first faulty board from `from` on.
fn faulty_from(v: &Vote, from: usize) -> Option<usize> {
    (from..v.boards).find(|b| !v.is_sound(*b))
}

// A faulty board, if there is one.
fn faulty(v: &mut Vote) -> Option<usize> {
    let from = v.random.below(v.boards);
    match faulty_from(v, from) {
        None => faulty_from(v, 0),
        found => found,
    }
}

// A small value, none, or any.
pub fn any_value(v: &mut Vote) -> usize {
    match v.random.below(8) {
        0..4 => v.random.below(3),
        4 => v.random.below(6),
        5 | 6 => NONE,
        _ => v.random.below(17),
    }
}

// The highest level seen, one up to that after it, or any.
pub fn any_level(v: &mut Vote) -> usize {
    if v.random.once_in(2) {
        return v.top;
    }
    if v.random.once_in(24) {
        return v.random.below(15);
    }
    v.random.below(v.top.saturating_add(2)).min(14)
}

// Any message of the vote.
fn any(v: &mut Vote) -> Message {
    let level = any_level(v);
    let kind = message::draw_kind(&mut v.random);
    let value = any_value(v);
    Message::new(v.agreement, Said { level, kind, value })
}

// What divides the boards: none to those that are off, a side to the others, or nothing.
fn dividing(v: &Vote, b: usize, kind: Kind) -> Option<usize> {
    let side = 1 + v.salt % 2;
    let off = v.off.get(b).copied().unwrap_or(false);
    match (off, kind) {
        (_, Kind::Side) => Some(side),
        (true, Kind::FirstProposal) | (false, Kind::SecondProposal) => None,
        (true, _) => Some(NONE),
        (false, _) => Some(side),
    }
}

// A value, none where the kind has it, or nothing at all, by a number.
fn some_saying(x: usize, kind: Kind) -> Option<usize> {
    match x % 8 {
        small @ 0..3 => Some(small),
        6.. => None,
        _ if message::has_none(kind) => Some(NONE),
        other => Some(other - 2),
    }
}

// What a faulty board mostly says to a board in messages of a level and kind, if it says anything.
pub fn saying(v: &Vote, liar: usize, b: usize, level: usize, kind: Kind) -> Option<usize> {
    let x = random::fixed(v.salt, key(level, kind.number(), liar), b);
    if v.is_divided && x / 8 % 8 != 0 {
        return dividing(v, b, kind);
    }
    some_saying(x, kind)
}

// That message, if there is one.
fn said_message(v: &mut Vote, liar: usize, b: usize) -> Option<Message> {
    let level = any_level(v);
    let kind = message::draw_kind(&mut v.random);
    let value = saying(v, liar, b, level, kind)?;
    Some(Message::new(v.agreement, Said { level, kind, value }))
}

// What another board said, or any message.
pub fn other_or_any(v: &mut Vote) -> Message {
    if v.random.once_in(3) {
        let i = v.random.below(v.pool.len());
        if let Some(handed) = v.pool.as_slice().get(i) {
            return Message::from(handed.message.as_slice());
        }
    }
    any(v)
}

// Now and then a message is damaged.
fn damaged(v: &mut Vote, mut message: Message) -> Message {
    match v.random.below(64) {
        0 => message.spoil(&mut v.random),
        1 => message.cut(&mut v.random),
        2 => message.lengthen(&mut v.random),
        _ => (),
    }
    message
}

// A lie to a board, if there is one.
fn lie(v: &mut Vote, liar: usize, b: usize) -> Option<Message> {
    if !v.is_wild && v.random.below(64) != 0 {
        return said_message(v, liar, b);
    }
    let message = other_or_any(v);
    Some(damaged(v, message))
}

// The board takes a lie, if some board is faulty.
pub fn take(v: &mut Vote, b: usize) -> Option<Call> {
    let liar = faulty(v)?;
    let message = lie(v, liar, b)?;
    Some(calls::take(v, Seat::Board(b), liar, message, Origin::Lie))
}
