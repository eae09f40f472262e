// A count answer is read, on both implementations.
use crate::choose::Reading;
use crate::{choose, claim, results};
use party::Party;
use random_votes_judge::judge;
use random_votes_state::outcome::Refused;
use random_votes_state::seats::Seat;
use random_votes_state::totals::Totals;
use random_votes_state::vote::Vote;
use second_plan::table::Table;

// What a count reading gave: a count, if there is an answer.
pub type Given = Result<Option<i64>, Refused>;

// What the library gives.
fn read_first(p: Party, reading: Reading) -> Given {
    board_counts::read_count(p, reading.size, reading.count).map_err(Refused::from)
}

// What the second implementation gives.
fn read_second(table: &Table, reading: Reading) -> Given {
    second_counts::read(table, reading.size, reading.count).map_err(Refused::from)
}

// The count answer of the seat whose call was made, if it is read now: on both; what they gave is compared and counted.
pub fn read(v: &mut Vote, totals: &mut Totals, seat: Seat, p: Party, table: &Table) {
    if !choose::is_read(v, seat) {
        return;
    }
    let reading = choose::draw_reading(v, seat);
    let given = read_first(p, reading);
    if given != read_second(table, reading) {
        judge::difference(v, totals);
    }
    results::count(&mut totals.counts, given);
    if let Some(b) = choose::claimed(v, seat, reading) {
        claim::keep(v, totals, b, given);
    }
}
