// Which votes go by counts, and how a board's count answer is read.
use random_votes_state::random::Random;
use random_votes_state::seats::Seat;
use random_votes_state::vote::{Phase, Vote};

// "g even, 2 to 1,000": at the limits, or any.
pub fn size(random: &mut Random) -> u32 {
    match random.below(10) {
        0 => 2,
        1 => 4,
        2 => 10,
        3 => 250,
        4 => 998,
        5 => 1000,
        _ => 2 * (random.between(1, 500) % 512) as u32,
    }
}

// A size that is refused: out of the limits, or odd.
pub fn wrong_size(random: &mut Random) -> u32 {
    match random.below(9) {
        0 => 0,
        1 => 1,
        2 => 3,
        3 => 999,
        4 => 1001,
        5 => 1002,
        6 => 4294967294,
        7 => 2 * (random.below(500) % 512) as u32 + 1,
        _ => (random.between(1001, 4294967295) % 4294967296) as u32,
    }
}

// In most votes on ranges all boards start by counts at one step size.
pub fn begin(v: &mut Vote) {
    let size = size(&mut v.random);
    v.size = if !v.plan.is_range() || v.random.once_in(6) {
        None
    } else {
        Some(size)
    };
}

// Of how many turns of a seat one is followed by a count reading: each of the last readings, many of the set-ups.
fn often(v: &Vote, seat: Seat) -> usize {
    match v.phase {
        Phase::Reading => 1,
        Phase::SettingUp => 4,
        _ if v.seats.at(seat).held.is_some() => 12,
        _ => 32,
    }
}

// Whether the seat's count answer is read after its call.
pub fn is_read(v: &mut Vote, seat: Seat) -> bool {
    let often = often(v, seat);
    v.random.once_in(often)
}

// What a count reading is given, and whether it is the vote's step size and the board's own count.
#[derive(Clone, Copy)]
pub struct Reading {
    pub size: u32,
    pub count: i64,
    pub is_own: bool,
}

// Any count: of another board, near the seat's own, or any of 64 bits.
fn some_count(v: &mut Vote, seat: Seat) -> i64 {
    let how = v.random.below(4);
    let board = v.random.below(16);
    let by = v.random.below(1002) as u64;
    match how {
        0 => *v.counts.board(board),
        1 => v.counts.at(seat).saturating_add_unsigned(by),
        2 => v.counts.at(seat).saturating_sub_unsigned(by),
        _ => i64::MIN.saturating_add_unsigned(v.random.any() as u64),
    }
}

// Another size: one that is refused or not.
fn some_size(random: &mut Random) -> u32 {
    if random.once_in(2) {
        wrong_size(random)
    } else {
        size(random)
    }
}

// What the reading is given: the vote's step size and the seat's own count, or now and then others.
pub fn draw_reading(v: &mut Vote, seat: Seat) -> Reading {
    let how = v.random.below(16);
    let count = if how < 2 {
        some_count(v, seat)
    } else {
        *v.counts.at(seat)
    };
    let size = match v.size {
        Some(size) if how != 1 && how != 2 => size,
        _ => some_size(&mut v.random),
    };
    Reading {
        size,
        count,
        is_own: 2 < how,
    }
}

// The board whose reading is held to the claim, if it is: that of a sound board by its own count, in a vote by counts.
pub fn claimed(v: &Vote, seat: Seat, reading: Reading) -> Option<usize> {
    let state = v.seats.at(seat);
    match seat {
        Seat::Board(b) if state.is_up() && state.started.is_some() => {
            if v.size.is_some() && reading.is_own {
                Some(b)
            } else {
                None
            }
        }
        _ => None,
    }
}
