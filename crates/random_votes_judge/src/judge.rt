// What a call did is compared, and what it leaves is kept.
use crate::{broken, demand, records};
use random_votes_seats::cuts;
use random_votes_state::both::{Journal, Journals, OUTGOING, Outgoing};
use random_votes_state::call::{Call, Origin, Request, Start, Take};
use random_votes_state::message::Fields;
use random_votes_state::outcome::Outcome;
use random_votes_state::pool::Messages;
use random_votes_state::seats::Seat;
use random_votes_state::totals;
use random_votes_state::totals::Totals;
use random_votes_state::vote::{Phase, Stage, Started, Telling, Vote, key, note};
use second_wire::group;

// A call on which the implementations differ.
pub fn difference(v: &mut Vote, totals: &mut Totals) {
    let here = v.noted();
    note(&mut totals.differences, &mut v.firsts.difference, here);
}

// A message that a board handed over is kept for all.
fn keep_message(v: &mut Vote, totals: &mut Totals, message: &[u8], b: usize) {
    let fields = Fields::of(message, v.number_length());
    v.top = v.top.max(fields.level);
    totals::count_at(&mut totals.kinds, fields.kind % 8);
    v.pool.keep(message, b);
}

// Up to `most` of the messages are handed over, which guards the records; how many.
fn hand_first(v: &mut Vote, totals: &mut Totals, messages: &[u8], b: usize, most: usize) -> usize {
    let mut handed = 0usize;
    for message in Messages::new(messages, v.number_length()).take(most) {
        keep_message(v, totals, message, b);
        handed = handed.saturating_add(1);
    }
    if 0 < handed {
        guard(v, b);
    }
    handed
}

// All messages of a call are handed over, or a cut comes after some of them, which have at most eight bytes each; how many are.
fn hand(v: &mut Vote, totals: &mut Totals, messages: &[u8], b: usize) -> usize {
    let sent = messages.len();
    if !cuts::comes(v, 24) {
        return hand_first(v, totals, messages, b, sent);
    }
    let most = v.random.below((sent / 8).saturating_add(3));
    let handed = hand_first(v, totals, messages, b, most);
    cuts::cut(v, totals, b);
    handed
}

// A cut must leave all used bytes.
fn guard(v: &mut Vote, b: usize) {
    let seat = v.seats.board_mut(b);
    seat.guarded = seat.used;
}

// A board's accepted call, what it gave, and the messages that it made.
#[derive(Clone, Copy)]
struct Accepted<'a> {
    board: usize,
    call: &'a Call,
    outcome: &'a Outcome,
    messages: &'a [u8],
}

// What a start, take or restore leaves: the journal's used length, the answer that the board holds now, and messages; how many of them are handed over.
fn after_call(v: &mut Vote, totals: &mut Totals, accepted: Accepted) -> usize {
    let b = accepted.board;
    v.seats.board_mut(b).used = accepted.outcome.used;
    demand::hold(v, totals, b, accepted.outcome.answer);
    hand(v, totals, accepted.messages, b)
}

// What a start leaves.
fn after_start(v: &mut Vote, totals: &mut Totals, accepted: Accepted, start: &Start) {
    let position = records::position(v, start);
    totals::count_at(&mut totals.lengths.positions, group::size(position));
    v.seats.board_mut(accepted.board).started = Some(Started {
        position,
        end: accepted.outcome.used,
    });
    after_call(v, totals, accepted);
}

// "every record that a restore gave back" is guarded. Messages that are handed over again may be forgotten ones.
fn after_restore(v: &mut Vote, totals: &mut Totals, accepted: Accepted) {
    let used = accepted.outcome.used;
    if used < accepted.call.room {
        totals::count(&mut totals.cuts.torn);
    }
    let seat = v.seats.board_mut(accepted.board);
    seat.guarded = used;
    seat.stage = Stage::Up;
    v.round.is_cut = true;
    let handed = after_call(v, totals, accepted);
    totals::grow(&mut totals.cuts.given_again, handed);
}

// A reading that gives an answer guards the records.
fn keep_reading(v: &mut Vote, b: usize) {
    guard(v, b);
    let seat = v.seats.board_mut(b);
    seat.read = seat.held;
}

// An answer was read by another call than the reading: the records are guarded. Where a cut follows, says whether nothing else had guarded the last of them.
pub fn keep_other_reading(v: &mut Vote, totals: &mut Totals, b: usize) -> Option<bool> {
    let guarded = v.seats.board(b).guarded;
    keep_reading(v, b);
    let alone = guarded < v.seats.board(b).guarded;
    if cuts::comes(v, 3) {
        cuts::cut(v, totals, b);
        return Some(alone);
    }
    None
}

// A cut may follow a reading.
fn after_reading(v: &mut Vote, totals: &mut Totals, b: usize, outcome: &Outcome) {
    demand::hold(v, totals, b, outcome.answer);
    if outcome.answer.is_some() {
        keep_reading(v, b);
        if cuts::comes(v, 3) {
            cuts::cut(v, totals, b);
            totals::count(&mut totals.cuts.after_reading);
        }
    }
}

// A lie that was taken is counted: by its level, where another board was told otherwise in messages of this level and kind, and among the last deliveries.
fn count_lie(v: &mut Vote, totals: &mut Totals, take: &Take, board: usize) {
    let fields = Fields::of(take.message.as_slice(), v.number_length());
    totals::count_at(&mut totals.lies, fields.level % 16);
    let value = fields.value;
    let key = key(fields.level, fields.kind, take.sender);
    let before = v.tell(key, Telling { board, value });
    if before.is_some_and(|told| told.board != board && told.value != value) {
        totals::count(&mut totals.two_tongued);
    }
    if v.phase == Phase::Delivering {
        totals::count(&mut totals.last_lies);
    }
}

// What a take leaves.
fn after_take(v: &mut Vote, totals: &mut Totals, accepted: Accepted, take: &Take) {
    let b = accepted.board;
    match take.origin {
        Origin::Lie => count_lie(v, totals, take, b),
        Origin::Pool(i) => v.pool.take(b, i, accepted.outcome.used),
        Origin::Other => (),
    }
    after_call(v, totals, accepted);
}

// What a board's call leaves.
fn after_board(v: &mut Vote, totals: &mut Totals, accepted: Accepted) {
    let b = accepted.board;
    match &accepted.call.request {
        Request::SetUp(_) => v.seats.board_mut(b).stage = Stage::Up,
        Request::Start(start) => after_start(v, totals, accepted, start),
        Request::Take(take) => after_take(v, totals, accepted, take),
        Request::Read => after_reading(v, totals, b, accepted.outcome),
        Request::Restore(_) => after_restore(v, totals, accepted),
    }
}

// An accepted call is counted, and kept.
fn after_accepted(
    v: &mut Vote,
    totals: &mut Totals,
    out: &Outgoing,
    call: &Call,
    outcome: &Outcome,
) {
    totals::count_at(&mut totals.accepted, call.request.place());
    match call.seat {
        Seat::Board(board) => {
            let messages = &out.first[..outcome.sent.min(OUTGOING)];
            let accepted = Accepted {
                board,
                call,
                outcome,
                messages,
            };
            after_board(v, totals, accepted);
        }
        Seat::Bench => {
            let bench = v.seats.at_mut(Seat::Bench);
            bench.used = outcome.used;
            bench.stage = Stage::Up;
        }
    }
}

// What both implementations gave: results, lent journals and whole outgoing buffers.
fn is_same(
    call: &Call,
    journal: &Journal,
    out: &Outgoing,
    first: &Outcome,
    second: &Outcome,
) -> bool {
    first == second && journal.is_same(call.room) && out.is_same(OUTGOING)
}

// Compares what the two implementations gave, and keeps what the first did.
pub fn judge(
    v: &mut Vote,
    totals: &mut Totals,
    journals: &Journals,
    out: &Outgoing,
    call: &Call,
    first: &Outcome,
    second: &Outcome,
) {
    v.calls = v.calls.saturating_add(1);
    totals::count(&mut totals.calls);
    let journal = &journals[call.seat.place()];
    if !is_same(call, journal, out, first, second) {
        difference(v, totals);
    }
    records::count(v, totals, call, first);
    match first.verdict {
        Ok(()) => after_accepted(v, totals, out, call, first),
        Err(refused) => broken::count(totals, journal, call, refused),
    }
}
