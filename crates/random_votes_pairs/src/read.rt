// A pair is read, on both implementations.
use crate::choose::Order;
use crate::{choose, claim, results};
use party::Party;
use random_votes_judge::judge;
use random_votes_state::outcome::Refused;
use random_votes_state::random::Random;
use random_votes_state::seats::Seat;
use random_votes_state::totals::Totals;
use random_votes_state::vote::Vote;
use second_plan::table::Table;

// What a pair reading gave: the readings of both votes, if there is an answer.
pub type Given = Result<Option<(i64, i64)>, Refused>;

// What a seat has in a vote: the library's party and the second implementation's table.
#[derive(Clone, Copy)]
pub struct Member {
    pub party: Party,
    pub table: Table,
}

// What the library gives.
fn read_first(a: &Member, b: &Member) -> Given {
    board_pair::read_pair(a.party, b.party).map_err(Refused::from)
}

// What the second implementation gives.
fn read_second(a: &Member, b: &Member) -> Given {
    second::pair::read(&a.table, &b.table).map_err(Refused::from)
}

// The pair is read on both; what they gave is compared and counted.
fn read_both(v: &mut Vote, totals: &mut Totals, a: &Member, b: &Member) -> Given {
    let given = read_first(a, b);
    if given != read_second(a, b) {
        judge::difference(v, totals);
    }
    results::count(&mut totals.pairs, given, &a.table, &b.table);
    given
}

// The records of a seat in both votes are read; where both are, what that gave is held to the claim.
pub fn read(
    random: &mut Random,
    first: &mut Vote,
    second: &mut Vote,
    totals: &mut Totals,
    seat: Seat,
    a: &Member,
    b: &Member,
) {
    match choose::draw_order(random) {
        Order::FirstTwice => {
            let _ = read_both(first, totals, a, a);
        }
        Order::SecondTwice => {
            let _ = read_both(first, totals, b, b);
        }
        Order::FirstFirst => {
            let given = read_both(first, totals, a, b);
            claim::keep(first, second, totals, seat, given);
        }
        Order::SecondFirst => {
            let given = read_both(first, totals, b, a);
            let given = given.map(|answer| answer.map(|(second, first)| (first, second)));
            claim::keep(first, second, totals, seat, given);
        }
    }
}
