// How long the record of a call is, and whether it just fits.
use random_votes_state::call::{Call, Request, Start};
use random_votes_state::outcome::Outcome;
use random_votes_state::seats::Seat;
use random_votes_state::totals;
use random_votes_state::totals::Totals;
use random_votes_state::vote::Vote;
use second_wire::{group, wire};

// The position of a start's input, or 0.
pub fn position(v: &Vote, start: &Start) -> usize {
    v.plan.position(start.input).unwrap_or(0)
}

// How many bytes the record of a start or take has: tag, agreement number and position, or tag, sender and message. A set-up, reading or restore has none, and the bench's
// start may be on another plan.
fn record_length(v: &Vote, call: &Call) -> Option<usize> {
    match &call.request {
        Request::Start(start) if call.seat != Seat::Bench => Some(
            group::size(wire::START)
                .saturating_add(v.number_length())
                .saturating_add(group::size(position(v, start))),
        ),
        Request::Take(take) => Some(
            group::size(wire::TAKEN)
                .saturating_add(group::size(take.sender))
                .saturating_add(take.message.len()),
        ),
        _ => None,
    }
}

// A record at the border of question 17 is counted.
pub fn count(v: &Vote, totals: &mut Totals, call: &Call, outcome: &Outcome) {
    let Some(length) = record_length(v, call) else {
        return;
    };
    let end = call.used.saturating_add(length);
    let lengths = &mut totals.lengths;
    match outcome.verdict {
        Err(refused) if refused.number == 17 && end == call.room.saturating_add(1) => {
            totals::count_at(&mut lengths.byte_short, v.number_length());
        }
        Ok(()) if end == call.room && outcome.used == end => {
            totals::count_at(&mut lengths.filled, v.number_length());
        }
        _ => (),
    }
}
