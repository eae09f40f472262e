// What every board must refuse, whoever sent it.
use crate::{calls, lies, spoil};
use random_votes_state::call::{Call, Origin};
use random_votes_state::message::{Kind, Message, Said};
use random_votes_state::seats::Seat;
use random_votes_state::vote::Vote;

// Another vote's message.
fn other(v: &mut Vote) -> Message {
    let agreement = spoil::other_number(v);
    let said = Said {
        level: 0,
        kind: Kind::FirstEcho,
        value: 0,
    };
    Message::new(agreement, said)
}

// Any board, or once in so many times none.
fn sender(v: &mut Vote, often: usize) -> usize {
    if v.random.once_in(often) {
        return v.random.between(v.boards, 40);
    }
    v.random.below(v.boards)
}

// The board takes a message of the vote from a sender that is no board; or another vote's or a spoilt one, from a board or now and then from none.
pub fn take(v: &mut Vote, b: usize) -> Call {
    let (message, often) = match v.random.below(5) {
        0 => (lies::other_or_any(v), 1),
        1 => (other(v), 8),
        _ => (spoil::spoilt(v), 8),
    };
    let sender = sender(v, often);
    calls::take(v, Seat::Board(b), sender, message, Origin::Other)
}
