// Rules 1 to 8: two rounds of echoes and proposals, which give the first and the second result. Each
// gives what it wants where it applies.
use crate::effect::{Effect, say_once};
use crate::heard;
use second_plan::table;
use second_plan::table::Table;
use second_wire::wire;
use second_wire::wire::Kind;

// Rule 1: first echo of the port, once.
pub fn rule_1(t: &mut Table, level: usize) -> Option<Effect> {
    let port = t.at(level, table::PORT);
    say_once(t, level, table::ECHOED_PORT, Kind::FirstEcho, port)
}

// Whether t+1 senders each first-echoed a value other than the port.
fn is_contested(t: &Table, level: usize) -> bool {
    let port = t.at(level, table::PORT);
    let d = t.at(level, table::DEGREE);
    heard::enough_where(
        t,
        level,
        Kind::FirstEcho,
        |v| v <= d && v != port,
        table::FEW,
    )
}

// Rule 2: t+1 senders each first-echoed a value other than the port: first echo of none, once.
pub fn rule_2(t: &mut Table, level: usize) -> Option<Effect> {
    if !is_contested(t, level) {
        return None;
    }
    say_once(t, level, table::ECHOED_NONE, Kind::FirstEcho, wire::NONE)
}

// Whether t+1 senders first-echoed v, and 2t+1 first-echoed v or none.
fn may_propose(t: &Table, level: usize, v: usize) -> bool {
    let or_none = |w| w == v || w == wire::NONE;
    heard::reached(t, level, Kind::FirstEcho, v, table::FEW)
        && heard::enough_where(t, level, Kind::FirstEcho, or_none, table::MANY)
}

// The smallest such v.
fn proposal(t: &Table, level: usize) -> Option<usize> {
    (0..=t.at(level, table::DEGREE)).find(|v| may_propose(t, level, *v))
}

// Rule 3: no first proposal yet, and the smallest such v: propose it.
pub fn rule_3(t: &mut Table, level: usize) -> Option<Effect> {
    let v = proposal(t, level)?;
    say_once(t, level, table::PROPOSED, Kind::FirstProposal, v)
}

// The bit of v at a place of 0 to 3.
fn bit(v: usize, place: usize) -> usize {
    match place {
        0 => v % 2,
        1 => v / 2 % 2,
        2 => v / 4 % 2,
        _ => v / 8 % 2,
    }
}

// Whether t+1 senders first-echoed none or a value with this bit at the place.
fn has_side(t: &Table, level: usize, place: usize, is: usize) -> bool {
    let d = t.at(level, table::DEGREE);
    let wanted = |v| v == wire::NONE || v <= d && bit(v, place) == is;
    heard::enough_where(t, level, Kind::FirstEcho, wanted, table::FEW)
}

// Whether at some bit place of 0 to 3 there are t+1 for bit 0 and t+1 for bit 1.
fn is_split(t: &Table, level: usize) -> bool {
    (0..4).any(|place| has_side(t, level, place, 0) && has_side(t, level, place, 1))
}

// The smallest v with n-t first proposals; else none where the first echoes are split.
fn first_result(t: &Table, level: usize) -> Option<usize> {
    heard::smallest(t, level, Kind::FirstProposal, 0, table::MOST).or_else(|| is_split(
        t, level,
    ).then_some(wire::NONE))
}

// Rule 4: no first result yet: the first result.
pub fn rule_4(t: &mut Table, level: usize) -> Option<Effect> {
    if t.get(level, table::FIRST).is_some() {
        return None;
    }
    let v = first_result(t, level)?;
    t.put(level, table::FIRST, Some(v));
    Some(Effect::NONE)
}

// Whether w was second-echoed.
fn is_echoed(t: &Table, level: usize, w: usize) -> bool {
    t.is_set(level, table::ECHOED_AGAIN.saturating_add(w))
}

// Second echo of w.
fn echo_again(t: &mut Table, level: usize, w: usize) -> Effect {
    t.set(level, table::ECHOED_AGAIN.saturating_add(w), 1);
    Effect::say(Kind::SecondEcho, w)
}

// Whether the first result is there and second-echoed.
fn has_echoed_first(t: &Table, level: usize) -> bool {
    t.get(level, table::FIRST)
        .is_some_and(|w| is_echoed(t, level, w))
}

// Rule 5: first result there: second echo of it, once. What was echoed is kept by value only.
pub fn rule_5(t: &mut Table, level: usize) -> Option<Effect> {
    let w = t.get(level, table::FIRST)?;
    if is_echoed(t, level, w) {
        return None;
    }
    Some(echo_again(t, level, w))
}

// Whether there are t+1 second echoes of w, and it is not yet echoed.
fn may_echo(t: &Table, level: usize, w: usize) -> bool {
    !is_echoed(t, level, w) && heard::reached(t, level, Kind::SecondEcho, w, table::FEW)
}

// The smallest such w, none last.
fn next_echo(t: &Table, level: usize) -> Option<usize> {
    (0..=t.at(level, table::DEGREE))
        .find(|w| may_echo(t, level, *w))
        .or_else(|| may_echo(t, level, wire::NONE).then_some(wire::NONE))
}

// Rule 6, after rule 5: t+1 second echoes of w, not yet echoed: echo it.
pub fn rule_6(t: &mut Table, level: usize) -> Option<Effect> {
    if !has_echoed_first(t, level) {
        return None;
    }
    let w = next_echo(t, level)?;
    Some(echo_again(t, level, w))
}

// Rule 7, after rule 5: no second proposal yet, 2t+1 second echoes of w: propose w.
pub fn rule_7(t: &mut Table, level: usize) -> Option<Effect> {
    if !has_echoed_first(t, level) {
        return None;
    }
    let w = heard::smallest_or_none(t, level, Kind::SecondEcho, table::MANY)?;
    say_once(t, level, table::PROPOSED_AGAIN, Kind::SecondProposal, w)
}

// The value v where t+1 second echoes stand for none and for exactly one value v.
fn lone_value(t: &Table, level: usize) -> Option<usize> {
    if !heard::reached(t, level, Kind::SecondEcho, wire::NONE, table::FEW) {
        return None;
    }
    let v = heard::smallest(t, level, Kind::SecondEcho, 0, table::FEW)?;
    let next = v.saturating_add(1);
    match heard::smallest(t, level, Kind::SecondEcho, next, table::FEW) {
        Some(_) => None,
        None => Some(v),
    }
}

// The second result and its grade: w with n-t second proposals gives (w, 2), or (none, 0); else the
// lone value v gives (v, 1).
fn second_result(t: &Table, level: usize) -> Option<(usize, usize)> {
    match heard::smallest_or_none(t, level, Kind::SecondProposal, table::MOST) {
        Some(wire::NONE) => Some((wire::NONE, 0)),
        Some(w) => Some((w, 2)),
        None => lone_value(t, level).map(|v| (v, 1)),
    }
}

// Rule 8: first result there, no second result: the second result.
pub fn rule_8(t: &mut Table, level: usize) -> Option<Effect> {
    if t.get(level, table::SECOND).is_some() || t.get(level, table::FIRST).is_none() {
        return None;
    }
    let (value, grade) = second_result(t, level)?;
    t.put(level, table::SECOND, Some(value));
    t.set(level, table::GRADE, grade);
    Some(Effect::NONE)
}
