// Starts by count: a start that was drawn becomes one by a count that should go to the step drawn.
use crate::choose;
use random_votes_judge::demand;
use random_votes_state::call::{Call, CountStart, Request, Start};
use random_votes_state::outcome::Outcome;
use random_votes_state::random::Random;
use random_votes_state::seats::Seat;
use random_votes_state::totals;
use random_votes_state::totals::Totals;
use random_votes_state::vote::{Phase, Vote};

// The remainder without its sign: often the limits.
fn part(random: &mut Random, half: u32) -> u64 {
    let half = u64::from(half);
    match random.below(8) {
        0 => 0,
        1 => 1,
        2 => half.saturating_sub(1),
        3..6 => half,
        _ => random.below((half + 1) as usize) as u64,
    }
}

// Whether the remainder is below 0: of "halves towards zero", where the step is.
fn is_below(random: &mut Random, step: i64, is_half: bool) -> bool {
    if is_half && step != 0 {
        return step < 0;
    }
    random.once_in(2)
}

// A count more or less by a part.
fn moved(count: i64, part: u64, is_below: bool) -> i64 {
    if is_below {
        count.saturating_sub_unsigned(part)
    } else {
        count.saturating_add_unsigned(part)
    }
}

// A count that goes to the step, and its remainder.
fn draw_at(random: &mut Random, size: u32, step: i64) -> CountStart {
    let half = size / 2;
    let part = part(random, half);
    let is_below = is_below(random, step, part == u64::from(half));
    CountStart {
        size,
        count: moved(step.saturating_mul(i64::from(size)), part, is_below),
        remainder: Some(moved(0, part, is_below)),
    }
}

// A count near an end of the 64 bits where the step is one, else one that goes to the step.
fn draw_count(random: &mut Random, size: u32, step: i64) -> CountStart {
    if step != i64::MIN && step != i64::MAX {
        return draw_at(random, size, step);
    }
    let by = random.below(3) as u64;
    CountStart {
        size,
        count: moved(step, by, step == i64::MAX),
        remainder: None,
    }
}

// The vote's step size; else any in some of the starts, or none.
fn draw_size(v: &mut Vote) -> Option<u32> {
    if v.size.is_some() {
        return v.size;
    }
    if v.random.once_in(4) {
        return Some(choose::size(&mut v.random));
    }
    None
}

// The count by which a start is made, if it is, now and then with a size that is refused.
fn draw_start(v: &mut Vote, start: &Start) -> Option<CountStart> {
    let size = draw_size(v)?;
    let mut count = draw_count(&mut v.random, size, start.input);
    if v.random.once_in(8) {
        count.size = choose::wrong_size(&mut v.random);
    }
    Some(count)
}

// Now and then a start comes before a seat's set-up, with any outgoing buffer: it is refused by 19, and the turn comes again.
fn come_early(v: &mut Vote, call: &mut Call) {
    if v.phase == Phase::SettingUp && v.random.once_in(8) {
        call.request = Request::Start(Start {
            input: v.plan.low,
            count: None,
        });
        call.out_room = v.random.below(2700);
        v.turn = v.turn.saturating_sub(1);
    }
}

// The call that is to be made, if it is a start, becomes one by count, or not.
pub fn prepare(v: &mut Vote, call: &mut Call) {
    come_early(v, call);
    if let Request::Start(start) = &mut call.request {
        start.count = draw_start(v, start);
    }
}

// Which sort of remainder it is: half a step below, less below, 0, less above, half a step above.
fn sort(remainder: i64, half: u32) -> usize {
    let half = i64::from(half);
    if remainder == -half {
        return 1;
    }
    match remainder {
        ..0 => 2,
        0 => 3,
        _ if remainder < half => 4,
        _ => 5,
    }
}

// An accepted start by count: its count is kept, its remainder, which each has, is the one drawn, and no count answer was read before.
fn keep_accepted(
    v: &mut Vote,
    totals: &mut Totals,
    seat: Seat,
    start: CountStart,
    remainder: Option<i64>,
) {
    totals::count(&mut totals.counts.starts);
    if remainder.is_none()
        || start.remainder != remainder
        || v.seats.at(seat).count_read.is_some()
    {
        demand::fault(v, totals);
    }
    if let Some(remainder) = remainder {
        let sort = sort(remainder, start.size / 2);
        totals::count_at(&mut totals.counts.remainders, sort);
    }
    *v.counts.at_mut(seat) = start.count;
}

// What a start by count gave is counted and kept.
pub fn keep(v: &mut Vote, totals: &mut Totals, call: &Call, outcome: &Outcome) {
    let Request::Start(start) = &call.request else {
        return;
    };
    let Some(count) = start.count else {
        return;
    };
    match outcome.verdict {
        Ok(()) => keep_accepted(v, totals, call.seat, count, outcome.remainder),
        Err(refused) => {
            totals::count_at(&mut totals.counts.starts_refused, refused.number % 32);
        }
    }
}
