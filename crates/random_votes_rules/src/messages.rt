// How many different messages a sound board made at a level: 7 at most, and none beyond the plan's sending levels.
use crate::{Change, traces};
use level::Level;
use random_votes_state::totals;
use random_votes_state::totals::Totals;
use random_votes_state::vote::Vote;

// The most at a level.
const MOST: usize = 7;

// How many levels of the vote's plan send.
pub fn keep_sending(v: &mut Vote) {
    v.sending = second_levels::find(v.plan.spelled.as_slice()).map_or(0, |bound| bound.levels);
}

// 1 if a side was sent: the next level was entered by a value of grade 1.
fn sides(level: &Level, next: Option<&Level>) -> usize {
    let is_sent = next.is_some_and(|next| next.entered) && traces::is_graded(level);
    usize::from(is_sent && traces::grade(level) == 1)
}

// How many messages the level's record shows as made.
fn made(level: &Level, next: Option<&Level>) -> usize {
    [1, 2, 3, 7, 11]
        .iter()
        .map(|rule| traces::of(level, *rule))
        .fold(0, |sum: usize, count| sum.saturating_add(count))
        .saturating_add(traces::echoes(level))
        .saturating_add(sides(level, next))
}

// How many of so many at level i are too many.
fn beyond(v: &Vote, i: usize, count: usize) -> usize {
    if i < v.sending {
        count.saturating_sub(MOST)
    } else {
        count
    }
}

// Level i of a sound board changed, and the next one, if there is one: how many messages it had made, and has made now.
pub fn count(v: &Vote, totals: &mut Totals, i: usize, level: Change, next: Option<Change>) {
    let before = made(level.old, next.map(|next| next.old));
    let after = made(level.new, next.map(|next| next.new));
    let more = beyond(v, i, after).saturating_sub(beyond(v, i, before));
    totals::grow(&mut totals.beyond, more);
    totals.most_messages = totals.most_messages.max(after);
}
