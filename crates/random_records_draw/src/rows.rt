// Changes of the vote's row and of the plan's rows.
use crate::vote::near;
use random_numbers::Random;
use second_sheet::sheet;
use second_sheet::sheet::{PLAN_ROWS, PlanRow, Sheet};

// A limit of n: itself, 1, 16, or what t or the own number asks for.
fn boards_limit(random: &mut Random, x: &Sheet) -> usize {
    match random.below(5) {
        0 => 1,
        1 => 16,
        2 => x.of_vote(sheet::FAULTS).saturating_mul(3).saturating_add(1),
        3 => x.of_vote(sheet::OWN).saturating_add(1),
        _ => x.of_vote(sheet::BOARDS),
    }
}

// A limit of the plan's positions.
fn count_limit(random: &mut Random, x: &Sheet) -> usize {
    match random.below(6) {
        0 => 255,
        1 => 65536,
        2 => 1,
        _ => x.of_vote(sheet::COUNT),
    }
}

// A limit of the low reading.
fn low_limit(random: &mut Random, x: &Sheet) -> usize {
    if x.is_range() {
        4294967296usize.saturating_sub(x.of_vote(sheet::COUNT))
    } else {
        random.below(2)
    }
}

// A number of the vote's row becomes one at or beside its limit.
pub fn change_vote(random: &mut Random, x: &mut Sheet, column: usize, limit: usize) {
    let value = near(random, limit);
    x.set(sheet::VOTE, column, value);
}

// n.
pub fn change_boards(random: &mut Random, x: &mut Sheet) {
    let limit = boards_limit(random, x);
    change_vote(random, x, sheet::BOARDS, limit);
}

// The plan's kind.
pub fn change_kind(random: &mut Random, x: &mut Sheet) {
    let limit = random.below(2).saturating_add(1);
    change_vote(random, x, sheet::KIND, limit);
}

// The plan's positions.
pub fn change_count(random: &mut Random, x: &mut Sheet) {
    let limit = count_limit(random, x);
    change_vote(random, x, sheet::COUNT, limit);
}

// The low reading.
pub fn change_low(random: &mut Random, x: &mut Sheet) {
    let limit = low_limit(random, x);
    change_vote(random, x, sheet::LOW, limit);
}

// One of the rows, half the time of the last four.
fn any_row(random: &mut Random, rows: usize) -> usize {
    if random.once_in(2) {
        rows.saturating_sub(random.below(4).saturating_add(1))
    } else {
        random.below(rows)
    }
}

// A row of the plan: turned, in another place, or with another end.
pub fn change_row(random: &mut Random, x: &mut Sheet) {
    let count = x.of_vote(sheet::COUNT);
    let i = any_row(random, count.saturating_sub(1));
    let j = random.below(i.saturating_add(1));
    let vertex = random.below(count.saturating_add(1));
    let row = x.plan_row(i);
    let other = x.plan_row(j);
    let PlanRow { from, to } = row;
    let changed = match random.below(5) {
        0 => row.turned(),
        1 => {
            x.set_plan_row(j, row);
            other
        }
        2 => PlanRow { from: vertex, to },
        3 => PlanRow {
            from: other.from,
            to,
        },
        _ => PlanRow { from, to: vertex },
    };
    x.set_plan_row(i, changed);
}

// An unused row: the first, the last, or any.
pub fn change_unused_row(random: &mut Random, x: &mut Sheet) {
    let first = x.rows_used();
    let i = match random.below(4) {
        0 => first,
        1 => PLAN_ROWS - 1,
        _ => first.saturating_add(random.below(PLAN_ROWS.saturating_sub(first))),
    };
    let from = random.below(2);
    let to = random.below(2);
    x.set_plan_row(i, PlanRow { from, to });
}
