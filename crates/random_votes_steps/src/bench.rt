// The bench: spoilt settings, plans and journals, and a party that takes messages from all boards.
use random_votes_seats::{calls, damage, lies};
use random_votes_state::both::Journals;
use random_votes_state::call::{Call, Origin, Request, Settings, Terms};
use random_votes_state::message::{Kind, Message, Said};
use random_votes_state::plan::{Edge, Spelled};
use random_votes_state::random::Random;
use random_votes_state::seats::Seat;
use random_votes_state::vote::Vote;
use random_votes_state::{message, random};

// Settings at and beyond their limits.
fn spoil_terms(random: &mut Random, terms: &mut Terms) {
    let how = random.below(4);
    let boards = random.below(20) as u32;
    let faults = random.below(8) as u32;
    let own = random.below(20) as u32;
    if how != 1 {
        terms.boards = boards;
    }
    if how != 2 {
        terms.faults = faults;
    }
    if how == 2 || how == 3 {
        terms.own = own;
    }
    if how == 3 {
        terms.faults = u32::MAX - faults;
    }
}

// A byte of the plan becomes one below `values`, of which there are at most 256.
fn spoil_byte(random: &mut Random, plan: &mut Spelled, values: usize) {
    let at = random.below(plan.len());
    let value = random.below(values) % 256;
    plan.set(at, value as u8);
}

// A star, whose sixteenth edge is refused.
fn put_star(plan: &mut Spelled, leaves: usize) {
    let mut edges = [Edge::default(); 19];
    for (k, edge) in edges.iter_mut().enumerate() {
        edge.a = k + 1;
    }
    plan.spell_tree(leaves.saturating_add(1), &edges[..leaves.min(19)]);
}

// A range whose low reading, width or high reading may be past its limit.
fn put_limit_range(random: &mut Random, plan: &mut Spelled) {
    let width = random.between(65530, 65540);
    let low = random::reading(random, 2147418100, 2147418125);
    plan.spell_range(low, width);
}

// The plan is damaged, or another plan takes its place.
fn spoil_plan(random: &mut Random, plan: &mut Spelled) {
    let how = random.below(10);
    match how {
        0 => plan.set_len(random.below(plan.len())),
        1 => plan.set_len(plan.len().saturating_add(1)),
        2 => put_star(plan, random.between(13, 19)),
        3 => put_limit_range(random, plan),
        _ => (),
    }
    spoil_byte(random, plan, if how < 6 { 256 } else { 14 });
}

// Spoilt settings, or a spoilt plan.
fn spoilt_settings(v: &mut Vote, b: usize) -> Settings {
    let mut settings = v.settings(b);
    if v.random.once_in(4) {
        spoil_terms(&mut v.random, &mut settings.terms);
    } else {
        v.damaged = v.plan.spelled;
        spoil_plan(&mut v.random, &mut v.damaged);
        settings.is_damaged = true;
    }
    settings
}

// A set-up, or a restore from an empty journal, of spoilt settings or a spoilt plan.
fn set_up(v: &mut Vote, b: usize) -> Call {
    let settings = spoilt_settings(v, b);
    v.seats.at_mut(Seat::Bench).used = 0;
    if v.random.once_in(4) {
        return restore(v, settings, 0);
    }
    v.call(Seat::Bench, Request::SetUp(settings))
}

// A restore from so many bytes of the bench's journal.
fn restore(v: &mut Vote, settings: Settings, length: usize) -> Call {
    let mut call = v.call(Seat::Bench, Request::Restore(settings));
    call.set_room(length);
    call.lend_out(&mut v.random);
    call
}

// A restore from a board's journal, damaged.
fn restore_damaged(v: &mut Vote, journals: &mut Journals, board: usize) -> Call {
    let used = v.seats.board(board).used;
    let journal = journals[Seat::Board(board).place()];
    let copy = &mut journals[Seat::Bench.place()];
    copy.copy_from(&journal, used);
    let length = damage::damage(&mut v.random, copy, used);
    restore(v, v.settings(board), length)
}

// One of two values of the kind, or any.
fn value(v: &mut Vote, kind: Kind) -> usize {
    let column = v.random.below(4);
    match lies::saying(v, 0, column, 0, kind) {
        Some(value) if column < 2 => value,
        _ => lies::any_value(v),
    }
}

// Any message, mostly of level 0.
fn any_message(v: &mut Vote) -> Message {
    let kind = message::draw_kind(&mut v.random);
    let value = value(v, kind);
    let level = if v.random.once_in(4) {
        lies::any_level(v)
    } else {
        0
    };
    Message::new(v.agreement, Said { level, kind, value })
}

// Any message, from any board or from none, unless it comes slowly.
fn take(v: &mut Vote) -> Option<Call> {
    let message = any_message(v);
    let mut sender = v.random.below(v.boards);
    if v.random.once_in(16) {
        sender = v.random.below(18);
    }
    if lies::is_slow(v, sender, &message, 0) && v.random.below(24) != 0 {
        return None;
    }
    Some(calls::take(v, Seat::Bench, sender, message, Origin::Other))
}

// A start, take or restore of the party that the bench holds.
pub fn call(v: &mut Vote) -> Option<Call> {
    let bench = v.seats.at(Seat::Bench);
    if !bench.is_up() {
        return None;
    }
    let used = bench.used;
    let call = match v.random.below(24) {
        0 => return Some(restore(v, v.settings(0), used)),
        1 => Some(calls::start_anyhow(v, Seat::Bench)),
        _ => take(v),
    };
    calls::lend(v, call, true)
}

// A call of the bench.
pub fn any_call(v: &mut Vote, journals: &mut Journals, board: usize) -> Option<Call> {
    match v.random.below(8) {
        0..3 => Some(set_up(v, board)),
        3 | 4 => Some(restore_damaged(v, journals, board)),
        _ => call(v),
    }
}
