// A vote through which a board is led, and the calls on it.
use random_buffers::Lent;
use random_numbers::Random;
use second_wire::list::List;
use second_wire::wire::{Kind, Message};

// The most messages of the board that are kept.
const MADE: usize = 500;

// A start at a position of the plan, by its reading as readings are kept; or a message taken from a
// sender.
#[derive(Clone, Copy, Debug, PartialEq, Eq)]
pub enum Action {
    Start { reading: usize },
    Take { sender: usize, message: Message },
}

// A call: the journal's used length, and how many bytes are lent to it.
#[derive(Clone, Copy, Debug, PartialEq, Eq)]
pub struct Call {
    pub action: Action,
    pub used: usize,
    pub lent: Lent,
}

// The pseudo-random numbers of a run, and its vote.
#[derive(Clone, Copy)]
pub struct Vote {
    pub random: Random,
    // Boards, faults and agreement number; the plan's last position and low reading.
    pub boards: usize,
    pub faults: usize,
    pub number: usize,
    pub last: usize,
    pub base: usize,
    // Whether the vote is one of few boards on a wide range, which goes deep.
    pub is_deep: bool,
    // How many steps the vote has, and from which on the board may start.
    pub steps: usize,
    pub start_at: usize,
    // The messages that the board made, and how many of them were given back to it, from each board.
    pub made: List<Message, MADE>,
    pub given: usize,
    // How many levels the board has entered.
    pub depth: usize,
    // The journal's used length.
    pub used: usize,
}

impl Vote {
    // Before the first vote of a run.
    pub fn new(seed: usize) -> Vote {
        let unused = Message {
            number: 0,
            level: 0,
            kind: Kind::Centre,
            value: 0,
        };
        Vote {
            random: Random::new(seed),
            boards: 0,
            faults: 0,
            number: 0,
            last: 0,
            base: 0,
            is_deep: false,
            steps: 0,
            start_at: 0,
            made: List::blank(unused),
            given: 0,
            depth: 0,
            used: 0,
        }
    }
}

// A number at x, mostly, or just beside it; now and then the least or greatest of a field.
pub fn near(random: &mut Random, x: usize) -> usize {
    match random.below(12) {
        0 => 0,
        1 => 4294967295,
        2..=4 => x.saturating_sub(1),
        5..=7 => x.saturating_add(1),
        _ => x,
    }
}
