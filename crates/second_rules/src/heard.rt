// Counting the boards that said something. Values above the level's d are never counted; none is.
use second_plan::table;
use second_plan::table::{Said, Table, VALUES};
use second_wire::wire;
use second_wire::wire::Kind;

// Whether the sender said a wanted value.
fn is_sender<F: Fn(usize) -> bool>(said: &Said, sender: usize, wanted: &F) -> bool
    requires { F.IsAlwaysCallable wanted.now }
{
    said.values.iter().enumerate().any(|(v, senders)| wanted(v)
        && senders.get(sender).is_some_and(|said| *said))
}

// How many boards said a wanted value.
fn senders<F: Fn(usize) -> bool>(said: &Said, wanted: &F) -> usize
    requires { F.IsAlwaysCallable wanted.now }
{
    (0..wire::SENDERS)
        .filter(|sender| is_sender(said, *sender, wanted))
        .count()
}

// Whether as many boards as a column of the vote's row says said a wanted value.
pub(crate) fn enough_where<F: Fn(usize) -> bool>(
    t: &Table,
    level: usize,
    kind: Kind,
    wanted: F,
    column: usize,
) -> bool
    requires { F.IsAlwaysCallable wanted }
{
    let wanted_by = match t.said(level, kind) {
        Some(said) => senders(said, &wanted),
        None => 0,
    };
    t.at(table::VOTE, column) <= wanted_by
}

// The same, where the values are flags: for each value whether it is wanted, none the last.
pub fn enough(t: &Table, level: usize, kind: Kind, wanted: &[bool; VALUES], column: usize) -> bool {
    let is_wanted = |v: usize| wanted.get(v).is_some_and(|is| *is);
    enough_where(t, level, kind, is_wanted, column)
}

// Whether so many boards said v.
pub fn reached(t: &Table, level: usize, kind: Kind, v: usize, column: usize) -> bool {
    enough_where(t, level, kind, |w| w == v, column)
}

// The smallest value from `from` to d that so many boards said.
pub fn smallest(t: &Table, level: usize, kind: Kind, from: usize, column: usize) -> Option<usize> {
    (from..=t.at(level, table::DEGREE)).find(|v| reached(t, level, kind, *v, column))
}

// The same from 0 on, with none last.
pub fn smallest_or_none(t: &Table, level: usize, kind: Kind, column: usize) -> Option<usize> {
    smallest(t, level, kind, 0, column).or_else(|| reached(
        t,
        level,
        kind,
        wire::NONE,
        column,
    ).then_some(wire::NONE))
}
