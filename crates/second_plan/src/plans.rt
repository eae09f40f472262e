// Plans: a tree's edges or a range, read into the table; and ranges written.
use crate::question::{Question, Refusal};
use crate::table::{Edge, PlanKind, Table};
use crate::trees::Distances;
use crate::{table, trees};
use second_wire::reader::Reader;
use second_wire::room::Room;
use second_wire::{group, wire};

// The most edges of a vertex.
const MOST_EDGES: usize = 15;

// A reading is kept as a number from 0 on, which for reading 0 is this.
pub const ZERO: usize = 2147483648;

// The next group. Question 4.
fn read_group(reader: &mut Reader) -> Result<usize, Refusal> {
    reader
        .group()
        .map_err(|broken| Question::PlanGroup.at(broken.place))
}

// Questions 7 to 9 of an edge in a tree of so many vertices, after the edges read.
fn ask_edge(vertices: usize, d: &Distances, edge: Edge) -> Result<(), Question> {
    let Edge { a, b } = edge;
    if a == b || vertices <= a || vertices <= b {
        return Err(Question::Ends);
    }
    if d.are_joined(a, b) {
        return Err(Question::Joined);
    }
    if MOST_EDGES <= d.degree(a) || MOST_EDGES <= d.degree(b) {
        return Err(Question::Edges);
    }
    Ok(())
}

// An edge, which is refused at its second end.
fn read_edge(
    reader: &mut Reader,
    vertices: usize,
    t: &mut Table,
    d: &mut Distances,
) -> Result<(), Refusal> {
    let a = read_group(reader)?;
    let place = reader.place();
    let b = read_group(reader)?;
    let edge = Edge { a, b };
    ask_edge(vertices, d, edge).map_err(|question| question.at(place))?;
    t.keep_edge(edge);
    d.join(edge);
    Ok(())
}

// The edges of a tree, one fewer than its vertices.
fn read_edges(reader: &mut Reader, vertices: usize, t: &mut Table) -> Result<(), Refusal> {
    let mut d = Distances::alone();
    for _ in 1..vertices {
        read_edge(reader, vertices, t, &mut d)?;
    }
    Ok(())
}

// Keeps the last position and the reading of position 0.
fn keep_positions(t: &mut Table, last: usize, base: usize) {
    t.set(table::VOTE, table::LAST, last);
    t.set(table::VOTE, table::BASE, base);
}

// A tree: its vertex count and edges.
fn read_tree(reader: &mut Reader, t: &mut Table) -> Result<(), Refusal> {
    let place = reader.place();
    let vertices = read_group(reader)?;
    if vertices < 1 || table::VERTICES < vertices {
        return Err(Question::Vertices.at(place));
    }
    keep_positions(t, vertices - 1, ZERO);
    trees::enter_whole(t, vertices);
    read_edges(reader, vertices, t)
}

// The signed number of a group's value z, as readings are kept.
fn raised(z: usize) -> usize {
    if z % 2 == 0 {
        ZERO.saturating_add(z / 2)
    } else {
        (ZERO - 1).saturating_sub(z / 2)
    }
}

// A range: its low reading and width. Question 10: every low is in its limits; the high reading is
// if it is kept below 2 * ZERO.
fn read_range(reader: &mut Reader, t: &mut Table) -> Result<(), Refusal> {
    let base = raised(read_group(reader)?);
    let place = reader.place();
    let width = read_group(reader)?;
    if wire::LAST_POSITION < width || 2 * ZERO <= base.saturating_add(width) {
        return Err(Question::Range.at(place));
    }
    keep_positions(t, width, base);
    t.set(0, table::HIGH, width);
    Ok(())
}

// The plan's positions and edges, of its kind.
fn read_kind(reader: &mut Reader, kind: usize, t: &mut Table) -> Result<(), Refusal> {
    match PlanKind::try_from(kind)? {
        PlanKind::Tree => read_tree(reader, t),
        PlanKind::Range => read_range(reader, t),
    }
}

// Reads the plan: its kind, positions and edges, and level 0's component. Question 11: nothing follows.
pub fn read(bytes: &[u8], t: &mut Table) -> Result<(), Refusal> {
    let mut reader = Reader::new(bytes, 0);
    let kind = read_group(&mut reader)?;
    t.set(table::VOTE, table::KIND, kind);
    read_kind(&mut reader, kind, t)?;
    if reader.is_at_end() {
        Ok(())
    } else {
        Err(Question::PlanEnd.at(reader.place()))
    }
}

// The group value of the signed reading kept as r.
fn signed(r: usize) -> usize {
    if r < ZERO {
        (2 * (ZERO - r)).saturating_sub(1)
    } else {
        (r - ZERO).saturating_mul(2)
    }
}

// Writes the plan of a range.
pub fn spell_range(room: &mut Room, low: usize, width: usize) {
    group::write(room, PlanKind::Range.number());
    group::write(room, signed(low));
    group::write(room, width);
}
