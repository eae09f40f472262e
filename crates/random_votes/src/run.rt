// Two votes that run side by side. A vote, the members of its seats and their journals go side by side, one vote's after the other's: they lie in main's frame, and
// a struct of lent parts is nothing that the borrow checker follows through two votes.
ghost use Rattle.std.specs.Prelude.{◌<◌, IfSome};
ghost use Rattle.random_votes_state.specs.Seats.{board_of};

use crate::calls;
use crate::calls::Members;
use party::Party;
use random_votes_draw::draw;
use random_votes_judge::{demand, judge};
use random_votes_pairs::{choose, claim};
use random_votes_rules::messages;
use random_votes_state::both::{Journals, Outgoing};
use random_votes_state::call::{Call, Request};
use random_votes_state::outcome::Outcome;
use random_votes_state::random::Random;
use random_votes_state::seats::Seat;
use random_votes_state::totals;
use random_votes_state::totals::Totals;
use random_votes_state::vote::{Vote, note};
use random_votes_steps::choose::seek;

// The next vote is drawn.
fn begin(vote: &mut Vote, members: &mut Members, totals: &mut Totals) {
    draw::draw(vote, totals);
    random_votes_counts::choose::begin(vote);
    messages::keep_sending(vote);
    let nobody = calls::nobody();
    for member in members.iter_mut() {
        *member = nobody;
    }
}

// The next call, if there is one; of a board that is none it would be the bench's.
fn prepare(vote: &mut Vote, journals: &mut Journals, totals: &mut Totals) -> Option<Call>
    ensures { IfSome result (λ call. board_of call.seat < 16) }
{
    let mut call = seek(vote, totals, journals);
    if let Some(call) = &mut call {
        random_votes_counts::start::prepare(vote, call);
    }
    vote.was_restore = call.as_ref().is_some_and(|call| call.request.is_restore());
    let mut call = call?;
    call.seat = call.seat.within();
    Some(call)
}

// The rules of an accepted start or take are counted.
fn count_rules(
    vote: &mut Vote,
    members: &Members,
    totals: &mut Totals,
    call: &Call,
    before: &Party,
    outcome: &Outcome,
) {
    if outcome.verdict.is_err() {
        return;
    }
    if !matches!(call.request, Request::Start(_) | Request::Take(_)) {
        return;
    }
    let after = &members[call.seat.place()].party;
    let seat = call.seat;
    if !random_votes_rules::count(vote, totals, before, after, seat, outcome.rules) {
        let here = vote.noted();
        note(&mut totals.miscounted, &mut vote.firsts.miscount, here);
    }
}

// A call is made on both implementations, counted and judged.
fn make(
    vote: &mut Vote,
    members: &mut Members,
    journals: &mut Journals,
    totals: &mut Totals,
    out: &mut Outgoing,
    call: &Call,
) {
    out.fill(vote.calls);
    let place = call.seat.place();
    let member = &mut members[place];
    let before = member.party;
    let journal = &mut journals[place];
    let (first, second) = calls::make(vote, call, member, journal, out);
    count_rules(vote, members, totals, call, &before, &first);
    judge::judge(vote, totals, journals, out, call, &first, &second);
    random_votes_counts::start::keep(vote, totals, call, &first);
    let member = &members[place];
    random_votes_counts::read::read(vote, totals, call.seat, member.party, &member.table);
}

// The next call, if there is one, is made; the seat that it was made of.
fn step(
    vote: &mut Vote,
    members: &mut Members,
    journals: &mut Journals,
    totals: &mut Totals,
    out: &mut Outgoing,
) -> Option<Seat> {
    let call = prepare(vote, journals, totals)?;
    make(vote, members, journals, totals, out, &call);
    Some(call.seat)
}

// The end of the vote.
fn conclude(vote: &mut Vote, totals: &mut Totals) {
    demand::conclude(vote, totals);
    random_votes_counts::claim::conclude(vote, totals);
}

// The vote is counted, also by the bytes of its agreement number.
fn count(vote: &mut Vote, totals: &mut Totals) {
    vote.number = vote.number.saturating_add(1);
    totals::count(&mut totals.votes);
    totals::count_at(&mut totals.lengths.numbers, vote.number_length());
}

// What all votes share: the pseudo-random numbers by which their pairs are read, what they came to, and the outgoing buffer that every call is lent.
#[derive(Drop)]
pub struct Run {
    pub random: Random,
    pub totals: Totals,
    pub out: Outgoing,
}

impl Run {
    // The pair of a seat is read, if one is after these calls.
    fn read_pair(
        &mut self,
        first: &mut Vote,
        members: &Members,
        second: &mut Vote,
        others: &Members,
        called: (Option<Seat>, Option<Seat>),
    ) {
        let seat = choose::seat(&mut self.random, first, second, called);
        if let Some(seat) = seat {
            random_votes_pairs::read::read(
                &mut self.random,
                first,
                second,
                &mut self.totals,
                seat,
                &members[seat.place()],
                &others[seat.place()],
            );
        }
    }

    // Two votes, from their set-ups to their readings.
    fn run(
        &mut self,
        first: &mut Vote,
        members: &mut Members,
        journals: &mut Journals,
        second: &mut Vote,
        others: &mut Members,
        other_journals: &mut Journals,
    ) {
        for _ in 0..100000 {
            if choose::is_over(first, second) {
                break;
            }
            let one = step(first, members, journals, &mut self.totals, &mut self.out);
            let other = step(
                second,
                others,
                other_journals,
                &mut self.totals,
                &mut self.out,
            );
            self.read_pair(first, members, second, others, (one, other));
        }
        conclude(first, &mut self.totals);
        conclude(second, &mut self.totals);
        claim::conclude(first, second, &mut self.totals);
    }

    // Two votes are drawn and run.
    pub fn run_two(
        &mut self,
        first: &mut Vote,
        members: &mut Members,
        journals: &mut Journals,
        second: &mut Vote,
        others: &mut Members,
        other_journals: &mut Journals,
    ) {
        begin(first, members, &mut self.totals);
        begin(second, others, &mut self.totals);
        choose::begin(&mut self.random, first, second);
        self.run(first, members, journals, second, others, other_journals);
        count(first, &mut self.totals);
        count(second, &mut self.totals);
    }
}
