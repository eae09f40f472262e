// A board is led through a vote: which call comes next, and what the board made.
use crate::vote::{Action, Call, Vote};
use random_buffers::{JOURNAL, Lent};
use random_numbers::Random;
use second_plan::table;
use second_plan::table::Table;
use second_wire::reader::Reader;
use second_wire::room::OUTGOING;
use second_wire::wire;
use second_wire::wire::{Kind, Message};

// How many boards: four, few, or any number.
fn boards(random: &mut Random) -> usize {
    let any = random.below(16).saturating_add(1);
    match random.below(4) {
        0 => 4,
        1 => (any % 3).saturating_add(1),
        _ => any,
    }
}

// So many boards, any number of faults, and a vote of so many steps.
fn draw_vote(vote: &mut Vote, boards: usize, is_deep: bool, steps: usize) {
    let faults = (boards.saturating_sub(1) / 3).saturating_add(1);
    vote.boards = boards;
    vote.is_deep = is_deep;
    vote.steps = steps;
    vote.faults = vote.random.below(faults);
    vote.number = vote.random.below(300);
    vote.start_at = vote.random.below(8);
    vote.made.clear();
    vote.given = 0;
    vote.used = 0;
}

// A vote, now and then a deep one.
pub fn draw_settings(vote: &mut Vote) {
    if vote.random.once_in(6) {
        let few = vote.random.below(2).saturating_add(1);
        let long = vote.random.below(100).saturating_add(100);
        draw_vote(vote, few, true, long);
    } else {
        let boards = boards(&mut vote.random);
        let steps = vote.random.below(60);
        draw_vote(vote, boards, false, steps);
    }
}

// How many levels are entered.
pub fn depth(t: &Table) -> usize {
    (0..16)
        .filter(|level| t.is_set(*level, table::ENTERED))
        .count()
}

// A value: one of the level's, none, or any.
fn any_value(random: &mut Random, d: usize) -> usize {
    match random.below(8) {
        0 => random.below(18),
        1 | 2 => wire::NONE,
        _ => random.below(d.saturating_add(1)),
    }
}

// A start at a position of the plan, or just beyond.
fn draw_start(vote: &mut Vote) -> Action {
    let position = vote.random.below(vote.last.saturating_add(2));
    Action::Start {
        reading: vote.base.saturating_add(position),
    }
}

// Any message of an agreement number at an entered level or beyond, from any board or from none.
fn draw_message(vote: &mut Vote, t: &Table, number: usize) -> Action {
    let level = vote.random.below(vote.depth.saturating_add(1));
    let kind = Kind::ALL[vote.random.below(wire::KINDS)];
    let value = any_value(&mut vote.random, t.at(level, table::DEGREE));
    let any = vote.random.below(vote.boards);
    let is_none = vote.random.once_in(32);
    let sender = if is_none { vote.boards } else { any };
    Action::Take {
        sender,
        message: Message {
            number,
            level,
            kind,
            value,
        },
    }
}

// A message that the board made comes back, from each board in turn; where none is left, any message.
fn draw_made(vote: &mut Vote, t: &Table) -> Action {
    let round = vote.given.checked_div(vote.boards).unwrap_or(0);
    let sender = vote.given.checked_rem(vote.boards).unwrap_or(0);
    match vote.made.get(round).copied() {
        Some(message) => {
            vote.given = vote.given.saturating_add(1);
            Action::Take { sender, message }
        }
        None => draw_message(vote, t, vote.number),
    }
}

// What is lent: mostly enough, now and then a byte too few.
fn lend(vote: &mut Vote) -> Lent {
    let how = vote.random.below(64);
    let journal = match how {
        0 => vote.used.saturating_sub(1),
        1 => vote.used.saturating_add(3),
        _ => vote.used.saturating_add(32),
    };
    let out = match how {
        2 => OUTGOING - 1,
        3 => OUTGOING + 60,
        _ => OUTGOING,
    };
    Lent {
        journal: journal.min(JOURNAL),
        out,
    }
}

// What the board is called for at a step.
fn draw_action(vote: &mut Vote, t: &Table, step: usize) -> Action {
    if vote.depth == 0 && vote.start_at <= step {
        return draw_start(vote);
    }
    let noise = if vote.is_deep { 200 } else { 6 };
    if vote.random.once_in(noise) {
        draw_message(vote, t, vote.number)
    } else {
        draw_made(vote, t)
    }
}

// The next call of the vote.
pub fn draw_call(vote: &mut Vote, t: &Table, step: usize) -> Call {
    vote.depth = depth(t);
    let lent = lend(vote);
    let action = draw_action(vote, t, step);
    Call {
        action,
        used: vote.used,
        lent,
    }
}

// A call on a changed record, which has its own agreement number.
pub fn draw_other(vote: &mut Vote, t: &Table, number: usize) -> Call {
    let lent = lend(vote);
    let action = if vote.random.once_in(6) {
        draw_start(vote)
    } else {
        draw_message(vote, t, number)
    };
    Call {
        action,
        used: vote.used,
        lent,
    }
}

// The messages of a call are kept, as many as there is place for.
pub fn keep_sent(vote: &mut Vote, sent: &[u8]) {
    let mut reader = Reader::new(sent, 0);
    for _ in sent {
        if reader.is_at_end() {
            break;
        }
        if let Ok(message) = wire::read_message(&mut reader) {
            vote.made.push(message);
        }
    }
}
