// Changes of a level's row. The table of the second implementation says where the limits of a level are.
use crate::vote::{Vote, near};
use random_numbers::Random;
use second_plan::table;
use second_plan::table::Table;
use second_sheet::sheet;
use second_sheet::sheet::Sheet;

// A level: mostly one that is entered, or the next, the last, or any.
fn any_level(vote: &mut Vote) -> usize {
    match vote.random.below(12) {
        0 => vote.random.below(16),
        1 => 15,
        2 | 3 => vote.depth,
        4 => vote.depth.saturating_sub(1),
        _ => vote.random.below(vote.depth),
    }
}

// 2 to the b, or 0 where b is above 16.
fn power(b: usize) -> usize {
    if b <= 16 { 1 << b } else { 0 }
}

// A set of senders: board n-1 or board n alone, all, or any below n or below 16.
fn any_set(random: &mut Random, n: usize) -> usize {
    match random.below(8) {
        0 => power(n),
        1 => random.below(65536),
        2 => power(n.saturating_sub(1)),
        3 => power(n).saturating_sub(1),
        _ => random.below(power(n)),
    }
}

// The column of the senders at a place, which is that of a kind and value.
fn set_column(place: usize) -> usize {
    sheet::SETS.saturating_add(place)
}

// A set of senders at a level.
pub fn change_set(vote: &mut Vote, x: &mut Sheet) {
    let level = any_level(vote);
    let kind = vote.random.below(6).saturating_add(1);
    let value = vote.random.below(sheet::VALUES);
    let set = any_set(&mut vote.random, x.of_vote(sheet::BOARDS));
    let place = kind.saturating_mul(sheet::VALUES).saturating_add(value);
    x.set(level, set_column(place), set);
}

// Now and then a set of boards below n takes the place of another.
fn change_set_at(random: &mut Random, x: &mut Sheet, level: usize, place: usize) {
    if random.once_in(4) {
        let set = random.below(power(x.of_vote(sheet::BOARDS)));
        x.set(level, set_column(place), set);
    }
}

// Many sets of senders, of all levels that send.
pub fn change_sets(random: &mut Random, x: &mut Sheet) {
    for level in 0..15 {
        for place in 0..128 {
            change_set_at(random, x, level, place);
        }
    }
}

// An output at a level.
pub fn change_output(vote: &mut Vote, x: &mut Sheet) {
    let level = any_level(vote);
    let limit = match vote.random.below(3) {
        0 => sheet::NO_OUTPUT,
        1 => x.of_vote(sheet::COUNT).saturating_sub(1),
        _ => x.of_vote(sheet::COUNT),
    };
    let value = near(&mut vote.random, limit);
    x.set(level, sheet::OUTPUT, value);
}

// Whether a level is entered.
pub fn change_entered(vote: &mut Vote, x: &mut Sheet) {
    let level = any_level(vote);
    let value = vote.random.below(2);
    x.set(level, sheet::ENTERED, value);
}

// The side by which a level is entered.
pub fn change_side(vote: &mut Vote, x: &mut Sheet, t: &Table) {
    let level = any_level(vote);
    let value = any_side(&mut vote.random, t, level);
    x.set(level, sheet::SIDE, value);
}

// A side of the level before: 1 to d, or one beside.
fn any_side(random: &mut Random, t: &Table, level: usize) -> usize {
    let d = t.at(level.saturating_sub(1), table::DEGREE);
    if random.once_in(2) {
        random.below(d.saturating_add(1))
    } else {
        near(random, d)
    }
}

// A number by which a level's component is told: an end, the centre or that of the level before, or
// a neighbour.
fn landmark(random: &mut Random, t: &Table, level: usize) -> usize {
    match random.below(5) {
        0 => t.at(level, table::LOW),
        1 => t.at(level, table::HIGH),
        2 => t.at(level, table::CENTRE),
        3 => t.at(level.saturating_sub(1), table::CENTRE),
        _ => t.at(level, table::NEIGHBOUR + 1),
    }
}

// The position at which a level is entered.
pub fn change_position(vote: &mut Vote, x: &mut Sheet, t: &Table) {
    let level = any_level(vote);
    let limit = landmark(&mut vote.random, t, level);
    let value = near(&mut vote.random, limit);
    x.set(level, sheet::POSITION, value);
}

// A result: a value to d or just beyond, none, not there yet, or none of these.
fn any_result(random: &mut Random, t: &Table, level: usize) -> usize {
    let d = t.at(level, table::DEGREE);
    match random.below(6) {
        0 => sheet::NONE,
        1 => sheet::NOT_YET,
        2 => sheet::NOT_YET + 1,
        3 => random.below(d.saturating_add(1)),
        _ => near(random, d),
    }
}

// The first or the second result of a level.
pub fn change_result(vote: &mut Vote, x: &mut Sheet, t: &Table, column: usize) {
    let level = any_level(vote);
    let value = any_result(&mut vote.random, t, level);
    x.set(level, column, value);
}

// What was made at a level, of which nothing is asked: a flag, a proposal, the grade, an echo.
pub fn change_made(vote: &mut Vote, x: &mut Sheet) {
    let level = any_level(vote);
    let random = &mut vote.random;
    let column = sheet::ECHOED_PORT.saturating_add(random.below(5));
    x.set(level, column, random.below(19));
    x.set(level, sheet::SURE, random.below(2));
    let echoed = sheet::ECHOED.saturating_add(random.below(sheet::VALUES));
    x.set(level, echoed, random.below(2));
}

// A level is entered by a side of the one before, at that side's neighbour of the centre or beside.
pub fn change_entry(vote: &mut Vote, x: &mut Sheet, t: &Table) {
    let level = any_level(vote);
    let side = any_side(&mut vote.random, t, level);
    let neighbour = t.at(
        level.saturating_sub(1),
        table::NEIGHBOUR.saturating_add(side),
    );
    x.set(level, sheet::ENTERED, 1);
    x.set(level, sheet::SIDE, side);
    x.set(level, sheet::POSITION, neighbour);
}
