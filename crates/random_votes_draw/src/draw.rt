// A vote is drawn: boards, faults, agreement number, plan, and how its boards behave.
use crate::plans;
use random_votes_state::plan::PlanKind;
use random_votes_state::random::Random;
use random_votes_state::seats::BOARDS;
use random_votes_state::totals::Totals;
use random_votes_state::vote::{Inputs, Phase, Slow, Vote};
use random_votes_state::{totals, varint};

// Of 64 votes most have four boards on the smallest plans, some four, seven or any number on small ones, two any plan, one a tree of the largest size and one the
// widest range.
#[derive(Clone, Copy, PartialEq, Eq)]
enum Class {
    Smallest,
    Four,
    Seven,
    AnyBoards,
    AnyPlan,
    LargestTree,
    WidestRange,
}

impl Class {
    // That of a vote by its number.
    fn of(vote: usize) -> Class {
        match vote % 64 {
            0..40 => Class::Smallest,
            40..48 => Class::Four,
            48..54 => Class::Seven,
            54..60 => Class::AnyBoards,
            62 => Class::LargestTree,
            63 => Class::WidestRange,
            _ => Class::AnyPlan,
        }
    }
}

// How many boards: four in most votes, seven, or any number.
fn boards(random: &mut Random, class: Class) -> usize {
    match class {
        Class::Smallest | Class::Four => 4,
        Class::Seven => 7,
        Class::AnyBoards => random.between(1, 16),
        Class::AnyPlan | Class::LargestTree | Class::WidestRange => random.between(1, 8),
    }
}

// The most faults, or fewer.
fn faults(random: &mut Random, boards: usize) -> usize {
    let most = boards.saturating_sub(1) / 3;
    if random.once_in(4) {
        return random.below(most + 1);
    }
    most
}

// Any width, with as many of each length in bits.
fn any_width(random: &mut Random) -> usize {
    match random.below(17) {
        0..4 => random.below(16),
        4..8 => random.below(256),
        8..12 => random.below(4096),
        16 => 65535,
        _ => random.below(65536),
    }
}

// How many positions: three or four in most votes, a few, or any number of the kind.
fn positions(random: &mut Random, class: Class, kind: PlanKind) -> usize {
    match class {
        Class::Smallest => random.between(3, 4),
        Class::Four | Class::Seven | Class::AnyBoards => random.between(1, 12),
        Class::LargestTree => 255,
        Class::WidestRange => 65536,
        Class::AnyPlan if kind == PlanKind::Range => any_width(random).saturating_add(1),
        Class::AnyPlan => random.between(1, 60),
    }
}

// The first number of so many bytes, or the last before it.
fn beside_border(random: &mut Random, bytes: usize) -> usize {
    let first = varint::first_beyond(bytes.saturating_sub(1));
    first.saturating_sub(random.below(2))
}

// Small numbers, those near the largest, those of any length, and those at both sides of a border between lengths.
fn agreement(random: &mut Random) -> usize {
    match random.below(5) {
        0 => random.between(4294967290, 4294967295),
        1 => random.below(4294967296),
        2 => random.below(20000),
        3 => {
            let bytes = random.between(2, 5);
            beside_border(random, bytes)
        }
        _ => random.below(130),
    }
}

// All of so many boards are marked in a row, but for at most so many.
fn mark(random: &mut Random, row: &mut [bool; BOARDS], boards: usize, but: usize) {
    for marked in row.iter_mut().take(boards) {
        *marked = true;
    }
    for _ in 0..but {
        if let Some(marked) = row.get_mut(random.below(boards)) {
            *marked = false;
        }
    }
}

// So many in 64 of all links, or of all kinds at boards, are slow.
fn slow_down(random: &mut Random, slow: &mut [[bool; BOARDS]; 16], so_many: usize) {
    for row in slow.iter_mut() {
        for is_slow in row.iter_mut() {
            *is_slow = random.below(64) < so_many;
        }
    }
}

// Boards, faults and agreement number.
fn draw_boards(v: &mut Vote, class: Class) {
    v.boards = boards(&mut v.random, class);
    v.faults = faults(&mut v.random, v.boards);
    v.agreement = agreement(&mut v.random);
    v.forget();
    let mut sound = [false; BOARDS];
    mark(&mut v.random, &mut sound, v.boards, v.faults);
    for (b, is_sound) in sound.iter().enumerate() {
        v.seats.board_mut(b).is_sound = *is_sound;
    }
}

// The plan's kind: a range or a tree of the largest size now and then, else either.
fn kind(random: &mut Random, class: Class) -> PlanKind {
    match class {
        Class::LargestTree => PlanKind::Tree,
        Class::WidestRange => PlanKind::Range,
        _ if random.below(2) == 0 => PlanKind::Tree,
        _ => PlanKind::Range,
    }
}

// A position; on larger ranges one at a border between lengths, if it is there.
fn near(random: &mut Random, class: Class, positions: usize) -> usize {
    if class == Class::AnyPlan {
        let bytes = random.between(2, 3);
        let border = beside_border(random, bytes);
        if border < positions {
            return border;
        }
    }
    random.below(positions)
}

// Inputs lie near one of the positions; on the widest range near its end, where levels are most.
fn inputs(random: &mut Random, class: Class, positions: usize) -> Inputs {
    let near = near(random, class, positions);
    let apart = random.between(1, 6);
    if class == Class::WidestRange {
        return Inputs {
            near: 65535,
            apart: 1,
        };
    }
    Inputs { near, apart }
}

// The plan, and where inputs lie.
fn draw_plan(v: &mut Vote, totals: &mut Totals, class: Class) {
    let kind = kind(&mut v.random, class);
    let positions = positions(&mut v.random, class, kind);
    plans::draw(&mut v.random, &mut v.plan, kind, positions);
    v.inputs = inputs(&mut v.random, class, positions);
    if positions == 65536 {
        totals::count(&mut totals.wide_ranges);
    }
    if kind == PlanKind::Tree && positions == 255 {
        totals::count(&mut totals.large_trees);
    }
}

// How many random steps there are, and how they go. A few cuts may come among the last deliveries; more on larger plans, where boards live longer and restores give
// more messages.
fn draw_steps(v: &mut Vote) {
    let random = &mut v.random;
    v.steps = random.below(v.boards.saturating_mul(60).saturating_add(20));
    v.lies = random.below(56);
    v.is_wild = random.below(2) == 1;
    v.salt = random.below(1099511627776).saturating_add(1);
    v.is_flooded = random.below(4) == 3;
    v.cuts_left = random.below(if v.plan.last < 16 { 4 } else { 32 });
    v.patience = random.below(4);
    v.round.leaves_out = false;
}

// One place of a row.
fn put(row: Option<&mut [bool; BOARDS]>, b: usize, is_slow: bool) {
    if let Some(place) = row.and_then(|row| row.get_mut(b)) {
        *place = is_slow;
    }
}

// To a board that is off, first proposals and second echoes of values come slowly, so that its results are none; to the others first echoes and second proposals.
fn divide_board(slow: &mut Slow, b: usize, off: bool) {
    for kind in [2, 3] {
        put(slow.kinds.get_mut(kind), b, off);
    }
    for kind in [1, 4] {
        put(slow.kinds.get_mut(kind), b, !off);
        put(slow.kinds.get_mut(kind + 8), b, !off);
    }
}

// All boards are off but for as many as may be faulty; links are not slow.
fn divide(v: &mut Vote) {
    slow_down(&mut v.random, &mut v.slow.links, 0);
    slow_down(&mut v.random, &mut v.slow.kinds, 0);
    for (b, off) in v.off.iter().enumerate() {
        divide_board(&mut v.slow, b, *off);
    }
}

// In a divided vote most inputs are at one end of the plan, and faulty boards keep to what divides.
fn draw_end(v: &mut Vote) {
    v.patience = v.random.between(1, 3);
    v.is_wild = false;
    v.inputs.near = if v.salt % 2 == 0 { 0 } else { v.plan.last };
}

// Which messages are slow, by link and by kind; or the boards are divided.
fn draw_slowness(v: &mut Vote) {
    v.is_divided = v.random.below(2) == 1;
    if v.is_divided {
        mark(&mut v.random, &mut v.off, v.boards, v.faults);
        draw_end(v);
        divide(v);
        return;
    }
    let links = v.random.below(32);
    slow_down(&mut v.random, &mut v.slow.links, links);
    let kinds = v.random.below(40);
    slow_down(&mut v.random, &mut v.slow.kinds, kinds);
}

// The next vote.
pub fn draw(v: &mut Vote, totals: &mut Totals) {
    let class = Class::of(v.number);
    draw_boards(v, class);
    draw_plan(v, totals, class);
    draw_steps(v);
    draw_slowness(v);
    v.turn = 0;
    v.phase = Phase::SettingUp;
}
