// Rules 9 to 14: outputs, and entering the next level.
use crate::effect::{Effect, say_once};
use crate::heard;
use second_plan::table;
use second_plan::table::Table;
use second_wire::wire;
use second_wire::wire::Kind;

// The second result where it is a side.
fn result_side(t: &Table, level: usize) -> Option<usize> {
    t.get(level, table::SECOND)
        .filter(|k| 0 < *k && *k < wire::NONE)
}

// An output, unless there is one.
fn output(t: &mut Table, level: usize, position: usize) -> Option<Effect> {
    if t.get(level, table::OUTPUT).is_some() {
        return None;
    }
    t.put(level, table::OUTPUT, Some(position));
    Some(Effect::NONE)
}

// Outputs the centre, unless there is an output.
fn output_centre(t: &mut Table, level: usize) -> Option<Effect> {
    let centre = t.at(level, table::CENTRE);
    output(t, level, centre)
}

// Rule 9: result value 0: output the centre, if no output here.
pub fn rule_9(t: &mut Table, level: usize) -> Option<Effect> {
    match t.get(level, table::SECOND) {
        Some(0) => output_centre(t, level),
        _ => None,
    }
}

// Enters a side at a position, unless the next level is entered.
fn enter(t: &Table, level: usize, side: usize, position: usize) -> Option<Effect> {
    if t.is_set(level.saturating_add(1), table::ENTERED) {
        return None;
    }
    Some(Effect::enter(side, position))
}

// Neighbour k of the centre.
fn neighbour(t: &Table, level: usize, k: usize) -> usize {
    t.at(level, table::NEIGHBOUR.saturating_add(k))
}

// The old position if the grade is 2 and it lies in side k, else neighbour k.
fn next_position(t: &Table, level: usize, k: usize) -> usize {
    if t.at(level, table::GRADE) == 2 && t.at(level, table::PORT) == k {
        t.at(level, table::POSITION)
    } else {
        neighbour(t, level, k)
    }
}

// Rule 10: value k of 1 or more, next level not entered: at grade 1 send side k; enter side k.
pub fn rule_10(t: &mut Table, level: usize) -> Option<Effect> {
    let k = result_side(t, level)?;
    let effect = enter(t, level, k, next_position(t, level, k))?;
    let is_sent = t.at(level, table::GRADE) == 1;
    Some(Effect {
        message: is_sent.then_some((Kind::Side, k)),
        entry: effect.entry,
    })
}

// Whether the second result is none.
fn is_none(t: &Table, level: usize) -> bool {
    t.get(level, table::SECOND) == Some(wire::NONE)
}

// Rule 11: result none, once: output the centre if no output here, send centre.
pub fn rule_11(t: &mut Table, level: usize) -> Option<Effect> {
    if !is_none(t, level) {
        return None;
    }
    let said = say_once(t, level, table::SAID_CENTRE, Kind::Centre, 0)?;
    output_centre(t, level);
    Some(said)
}

// Rule 12: result none, next level not entered, t+1 side k (smallest): enter side k at neighbour k.
pub fn rule_12(t: &mut Table, level: usize) -> Option<Effect> {
    if !is_none(t, level) {
        return None;
    }
    let k = heard::smallest(t, level, Kind::Side, 1, table::FEW)?;
    enter(t, level, k, neighbour(t, level, k))
}

// Rule 13: t+1 centre messages, no output here: output the centre.
pub fn rule_13(t: &mut Table, level: usize) -> Option<Effect> {
    if !heard::reached(t, level, Kind::Centre, 0, table::FEW) {
        return None;
    }
    output_centre(t, level)
}

// Rule 14: result value 1 or more, no output here, the next level has one: output it.
pub fn rule_14(t: &mut Table, level: usize) -> Option<Effect> {
    result_side(t, level)?;
    let position = t.get(level.saturating_add(1), table::OUTPUT)?;
    output(t, level, position)
}
