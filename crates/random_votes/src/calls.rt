// A call, made on both implementations.
use crate::{beside, first};
use random_votes_pairs::read::Member;
use random_votes_state::both::{Journal, Outgoing};
use random_votes_state::call::{Call, Request};
use random_votes_state::outcome::Outcome;
use random_votes_state::seats::SEATS;
use random_votes_state::vote::Vote;
use second_plan::table::Table;

// The members of all seats of a vote, the bench's last.
pub type Members = [Member; SEATS];

// What a seat has before it is set up.
pub fn nobody() -> Member {
    Member {
        party: first::nobody(),
        table: Table::new(),
    }
}

// The call on both: what each gave. A set-up or a restore is of a new member, which takes the seat unless the library refused it.
pub fn make(
    v: &Vote,
    call: &Call,
    member: &mut Member,
    journal: &mut Journal,
    out: &mut Outgoing,
) -> (Outcome, Outcome) {
    if !matches!(call.request, Request::SetUp(_) | Request::Restore(_)) {
        return make_on(v, call, member, journal, out);
    }
    let mut fresh = nobody();
    let outcomes = make_on(v, call, &mut fresh, journal, out);
    if outcomes.0.verdict.is_ok() {
        *member = fresh;
    }
    outcomes
}

// So many bytes of a buffer, or all where there are fewer.
fn lent(buffer: &mut [u8], length: usize) -> &mut [u8] {
    let length = length.min(buffer.len());
    &mut buffer[..length]
}

// The same of a member.
fn make_on(
    v: &Vote,
    call: &Call,
    member: &mut Member,
    journal: &mut Journal,
    out: &mut Outgoing,
) -> (Outcome, Outcome) {
    let one = first::make(
        v,
        call,
        &mut member.party,
        lent(&mut journal.first, call.room),
        lent(&mut out.first, call.out_room),
    );
    let other = beside::make(
        v,
        call,
        &mut member.table,
        lent(&mut journal.second, call.room),
        lent(&mut out.second, call.out_room),
    );
    (one, other)
}
