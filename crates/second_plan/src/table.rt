// A board's memory: one table of numbers, a flag being 0 or 1; the edges of its plan, the sides of each
// level's vertices, and which messages it took.
//
// Rows and columns are numbers, and no structs with named fields: that is how this implementation is
// to differ from the library (docs/DECISIONS.md).
ghost use Rattle.std.specs.Prelude.{◌≡◌, ℕ, ◌+◌, ◌≤◌, ◌<◌, IfSome, None};
ghost use Rattle.second_plan.specs.Sides.{kept_of, kept_at};

use crate::cells::Cells;
use crate::question::Question;
use second_wire::wire;
use second_wire::wire::{Kind, Message};

// Levels 0 to 15 have a row each, and after them the vote.
const LEVELS: usize = 16;

pub const VOTE: usize = LEVELS;

// The most vertices of a tree.
pub const VERTICES: usize = 255;

// How many values a message may have: 0 to 15, and none.
pub const VALUES: usize = wire::NONE + 1;

// Columns of the vote's row: n, t+1, 2t+1 and n-t; the agreement number.
pub const BOARDS: usize = 0;

pub const FEW: usize = 1;

pub const MANY: usize = 2;

pub const MOST: usize = 3;

pub const NUMBER: usize = 4;

// The plan's kind, its last position, and the reading of position 0; a tree's vertices are readings
// from 0 on.
pub const KIND: usize = 6;

pub const LAST: usize = 7;

pub const BASE: usize = 9;

// Columns of a level's row. SMALL: the component has one or two positions, and no rule applies.
pub const ENTERED: usize = 0;

pub const SMALL: usize = 1;

pub const POSITION: usize = 2;

pub const PORT: usize = 3;

pub const CENTRE: usize = 4;

// How many neighbours the centre has, d.
pub const DEGREE: usize = 5;

// The ends of a range's component; how many members a tree's has.
pub const LOW: usize = 6;

pub const HIGH: usize = 7;

pub const MEMBERS: usize = 8;

// What was said once.
pub const ECHOED_PORT: usize = 9;

pub const ECHOED_NONE: usize = 10;

pub const PROPOSED: usize = 11;

pub const PROPOSED_AGAIN: usize = 12;

pub const SAID_CENTRE: usize = 13;

// What may be there: the two results, and the output.
pub const FIRST: usize = 14;

pub const SECOND: usize = 15;

pub const OUTPUT: usize = 16;

// The grade of the second result.
pub const GRADE: usize = 17;

// From here: whether value w was second-echoed.
pub const ECHOED_AGAIN: usize = 24;

// From here: neighbour k of the centre.
pub const NEIGHBOUR: usize = 44;

// Kinds of plans, by their numbers.
#[derive(Clone, Copy, Debug, PartialEq, Eq)]
pub enum PlanKind {
    Tree = 1,
    Range = 2,
}

impl PlanKind {
    // The kind's number.
    pub fn number(self) -> usize {
        self as usize
    }
}

// plan_groups::Kind has the same: the second implementation shares no code (docs/DECISIONS.md).
impl TryFrom<usize> for PlanKind {
    type Error = Question;

    fn try_from(number: usize) -> Result<PlanKind, Question> {
        match number {
            1 => Ok(PlanKind::Tree),
            2 => Ok(PlanKind::Range),
            _ => Err(Question::PlanKind),
        }
    }
}

// The ends of an edge of the plan.
#[derive(Clone, Copy, Debug, Default, PartialEq, Eq)]
pub struct Edge {
    pub a: usize,
    pub b: usize,
}

// What was said in messages of a kind: for each value and sender whether the sender said it.
#[derive(Clone, Copy, PartialEq, Eq)]
pub struct Said {
    pub values: [[bool; wire::SENDERS]; VALUES],
}

// What was said at a level, for each kind.
#[derive(Clone, Copy, PartialEq, Eq)]
struct Kinds {
    said: [Said; wire::KINDS],
}

impl Kinds {
    // Nothing was said.
    fn none() -> Kinds {
        let said = Said {
            values: [[false; wire::SENDERS]; VALUES],
        };
        Kinds {
            said: [said; wire::KINDS],
        }
    }
}

// A vertex's side, or none, in two bytes, since a table is copied: it is kept as one more, and 0 is none.
// A side is at most 15, so each is held.
#[derive(Clone, Copy, PartialEq, Eq)]
struct Side {
    kept: u16,
}

impl Side {
    // One of 65,535 or more is not held: none is kept then.
    fn of(side: Option<usize>) -> Side
        ensures side { IfSome side (λ k. k < 65535 → result.kept ≡ k + 1) }
        ensures beyond { IfSome side (λ k. 65535 ≤ k → result.kept ≡ 0) }
        ensures none { side ≡ None → result.kept ≡ 0 }
    {
        match side {
            Some(k) if k < u16::MAX as usize => Side {
                kept: (k + 1) as u16,
            },
            _ => Side { kept: 0 },
        }
    }

    fn get(self) -> Option<usize>
        ensures side { IfSome result (λ k. self.kept ≡ k + 1) }
        ensures none { result ≡ None → self.kept ≡ 0 }
    {
        usize::from(self.kept).checked_sub(1)
    }
}

// For each vertex on which side of a level's centre it lies, 0 at the centre; none where it is not in
// the level's component.
#[derive(Clone, Copy, PartialEq, Eq)]
struct Sides {
    of: [Side; VERTICES],
}

impl Sides {
    // No vertex is in the component.
    fn none() -> Sides {
        Sides {
            of: [Side::of(None); VERTICES],
        }
    }

    // Sets the side of vertex v.
    fn set(&mut self, v: usize, side: Option<usize>)
        ensures side { v < 255 → IfSome side (λ k. k < 65535 → kept_of self.new v ≡ k + 1) }
        ensures beyond { v < 255 → IfSome side (λ k. 65535 ≤ k → kept_of self.new v ≡ 0) }
        ensures none { v < 255 → side ≡ None → kept_of self.new v ≡ 0 }
        ensures others { (w : ℕ) → (w ≡ v → ⊥) → kept_of self.new w ≡ kept_of self.old w }
    {
        if v < VERTICES {
            self.of[v] = Side::of(side);
        }
    }
}

#[derive(Clone, Copy)]
pub struct Table {
    cells: Cells,
    // The edges read of a tree, one after the other: Options in an array and no ArrayVec, since a table
    // is copied.
    edges: [Option<Edge>; VERTICES],
    sides: [Sides; LEVELS],
    // For each sending level what was said.
    kinds: [Kinds; wire::SENDING],
}

impl Table {
    // A table of zeros.
    pub fn new() -> Table {
        Table {
            cells: Cells::new(),
            edges: [None; VERTICES],
            sides: [Sides::none(); LEVELS],
            kinds: [Kinds::none(); wire::SENDING],
        }
    }

    // The number at a row and column, or 0.
    pub fn at(&self, row: usize, column: usize) -> usize {
        self.cells.at(row, column)
    }

    // Sets the number at a row and column.
    pub fn set(&mut self, row: usize, column: usize, value: usize) {
        self.cells.set(row, column, value);
    }

    // The number at a row and column where it may be missing: it is kept as one more, and 0 is none.
    pub fn get(&self, row: usize, column: usize) -> Option<usize> {
        self.at(row, column).checked_sub(1)
    }

    // Sets a number that may be missing.
    pub fn put(&mut self, row: usize, column: usize, value: Option<usize>) {
        self.set(row, column, value.map_or(0, |x| x.saturating_add(1)));
    }

    // Whether a flag is set.
    pub fn is_set(&self, row: usize, column: usize) -> bool {
        self.at(row, column) == 1
    }

    // Whether the plan is a range.
    pub fn is_range(&self) -> bool {
        self.at(VOTE, KIND) == PlanKind::Range.number()
    }

    // Whether two tables say the same of a board; the order of a tree's edges says nothing.
    pub fn says_same(&self, other: &Table) -> bool {
        self.cells == other.cells && self.sides == other.sides && self.kinds == other.kinds
    }

    // The edges read of a tree, one after the other.
    pub fn edges(&self) -> &[Option<Edge>] {
        &self.edges
    }

    // Keeps an edge after the others.
    pub fn keep_edge(&mut self, edge: Edge) {
        for place in self.edges.iter_mut() {
            if place.is_none() {
                *place = Some(edge);
                return;
            }
        }
    }

    // On which side of the level's centre vertex v lies, 0 at the centre; none where v is not in the
    // level's component.
    pub fn side_of(&self, level: usize, v: usize) -> Option<usize>
        ensures side { IfSome result (λ k. kept_at self.now.sides level v ≡ k + 1) }
        ensures none { level < 16 → v < 255 → result ≡ None → kept_at self.now.sides level v ≡ 0 }
    {
        if level < LEVELS && v < VERTICES {
            self.sides[level].of[v].get()
        } else {
            None
        }
    }

    // Whether v is in the level's component.
    pub fn is_inside(&self, level: usize, v: usize) -> bool {
        self.side_of(level, v).is_some()
    }

    // Sets the side of vertex v. One of 65,535 or more is not held: v has none then.
    pub fn set_side(&mut self, level: usize, v: usize, side: Option<usize>)
        ensures side { level < 16 → v < 255 → IfSome side (λ k. k < 65535 → kept_at self.new.sides level v ≡ k + 1) }
        ensures beyond { level < 16 → v < 255 → IfSome side (λ k. 65535 ≤ k → kept_at self.new.sides level v ≡ 0) }
        ensures none { level < 16 → v < 255 → side ≡ None → kept_at self.new.sides level v ≡ 0 }
        ensures vertices { (w : ℕ) → (w ≡ v → ⊥) → kept_at self.new.sides level w ≡ kept_at self.old.sides level w }
        ensures levels { (i w : ℕ) → (i ≡ level → ⊥) → kept_at self.new.sides i w ≡ kept_at self.old.sides i w }
    {
        if level < LEVELS {
            self.sides[level].set(v, side);
        }
    }

    // What was said at a level in messages of a kind.
    pub fn said(&self, level: usize, kind: Kind) -> Option<&Said> {
        self.kinds.get(level)?.said.get(place(kind))
    }

    // Whether the message was taken from the sender.
    pub fn is_said(&self, message: &Message, sender: usize) -> bool {
        self.said(message.level, message.kind)
            .and_then(|said| said.values.get(message.value))
            .and_then(|senders| senders.get(sender))
            .is_some_and(|said| *said)
    }

    // Keeps a message of the sender.
    pub fn hear(&mut self, message: &Message, sender: usize) {
        if let Some(kinds) = self.kinds.get_mut(message.level)
            && let Some(said) = kinds.said.get_mut(place(message.kind))
            && let Some(senders) = said.values.get_mut(message.value)
            && let Some(said) = senders.get_mut(sender)
        {
            *said = true;
        }
    }
}

// The place of a message's kind among all.
fn place(kind: Kind) -> usize {
    kind.number().saturating_sub(1)
}

#[cfg(test)]
mod tests {
    use super::*;

    // Sides that no level has are kept as well.
    #[test]
    fn keeps_sides(rt: HostRuntime) {
        let mut t = Table::new();
        for side in [Some(0), Some(15), Some(16), Some(256), Some(65534), None] {
            t.set_side(3, 7, side);
            assert_eq!(rt; t.side_of(3, 7), side);
        }
        for side in [65535, usize::MAX] {
            t.set_side(3, 7, Some(side));
            assert_eq!(rt; t.side_of(3, 7), None);
        }
    }
}
