// Which pair is read of two votes that run side by side.
ghost use Rattle.std.specs.Prelude.{◌<◌, IfSome};
ghost use Rattle.random_votes_state.specs.Seats.{board_of};

use random_votes_state::random::Random;
use random_votes_state::seats::Seat;
use random_votes_state::vote::{Phase, Vote};

// Now and then the second vote gets the first's agreement number.
pub fn begin(random: &mut Random, first: &Vote, second: &mut Vote) {
    if random.below(16) == 0 {
        second.agreement = first.agreement;
    }
}

// Whether both votes have ended.
pub fn is_over(first: &Vote, second: &Vote) -> bool {
    first.phase == Phase::Done && second.phase == Phase::Done
}

// Whether the vote may give one of the readings of a pair answer: it is on a range, and the seat has a party.
fn may_answer(v: &Vote, seat: Seat) -> bool {
    v.plan.is_range() && v.seats.at(seat).is_up()
}

// Of how many turns one is followed by a pair reading: each where both boards may answer.
fn often(first: &Vote, second: &Vote, seat: Seat) -> usize {
    if seat != Seat::Bench && may_answer(first, seat) && may_answer(second, seat) {
        1
    } else {
        32
    }
}

// The seat whose pair is read in this turn, if one is: that of the first or the second vote's call, or where there is none, or its board is none, the bench.
pub fn seat(
    random: &mut Random,
    first: &Vote,
    second: &Vote,
    called: (Option<Seat>, Option<Seat>),
) -> Option<Seat>
    ensures { IfSome result (λ seat. board_of seat < 16) }
{
    let (one, other) = called;
    let called = if random.below(2) == 0 { one } else { other };
    let seat = called.unwrap_or(Seat::Bench).within();
    if random.below(often(first, second, seat)) == 0 {
        Some(seat)
    } else {
        None
    }
}

// In which order a pair is read.
#[derive(Clone, Copy, PartialEq, Eq)]
pub enum Order {
    FirstTwice,
    SecondTwice,
    SecondFirst,
    FirstFirst,
}

// Now and then one of the records with itself, else either of them first.
pub fn draw_order(random: &mut Random) -> Order {
    match random.below(32) {
        0 => Order::FirstTwice,
        1 => Order::SecondTwice,
        how if how % 2 == 0 => Order::SecondFirst,
        _ => Order::FirstFirst,
    }
}
