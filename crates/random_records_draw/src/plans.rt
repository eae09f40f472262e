// Random plans, as bytes.
use crate::vote::Vote;
use random_numbers::Random;
use second_plan::plans::{ZERO, spell_range};
use second_plan::table::PlanKind;
use second_wire::group;
use second_wire::room::Room;

// A star with or without a tail, any tree of at most 16 vertices, or a long one.
#[derive(Clone, Copy, Debug, PartialEq, Eq)]
enum Shape {
    Star,
    Any,
    Long,
}

impl Shape {
    // One of them.
    fn draw(random: &mut Random) -> Shape {
        match random.below(4) {
            0 => Shape::Star,
            1 => Shape::Any,
            _ => Shape::Long,
        }
    }

    // How many vertices a tree of the shape has: no vertex may have more than 15 edges.
    fn vertices(self, random: &mut Random) -> usize {
        match self {
            Shape::Star => random.below(8).saturating_add(13),
            Shape::Any => random.below(16).saturating_add(1),
            Shape::Long => random.below(40).saturating_add(1),
        }
    }

    // The vertex to which the k-th is joined: the first, or the second after 15; any; or one of the four
    // before it.
    fn older(self, random: &mut Random, k: usize) -> usize {
        match self {
            Shape::Star => k / 16,
            Shape::Any => random.below(k),
            Shape::Long => k.saturating_sub(random.below(4).saturating_add(1)),
        }
    }
}

// The edge of a and b, either first.
fn put_edge(random: &mut Random, room: &mut Room, a: usize, b: usize) {
    let (first, second) = if random.once_in(2) { (a, b) } else { (b, a) };
    group::write(room, first);
    group::write(room, second);
}

// The name of the k-th vertex: they may be counted backwards.
fn name(k: usize, vertices: usize, is_turned: bool) -> usize {
    if is_turned {
        vertices.saturating_sub(k.saturating_add(1))
    } else {
        k
    }
}

// The edges of a tree.
fn put_edges(random: &mut Random, room: &mut Room, shape: Shape, vertices: usize) {
    let is_turned = random.once_in(2);
    for k in 1..vertices {
        let parent = shape.older(random, k);
        let a = name(k, vertices, is_turned);
        let b = name(parent, vertices, is_turned);
        put_edge(random, room, a, b);
    }
}

// A tree.
fn draw_tree(vote: &mut Vote, room: &mut Room) {
    let shape = Shape::draw(&mut vote.random);
    let vertices = shape.vertices(&mut vote.random);
    vote.last = vertices.saturating_sub(1);
    vote.base = ZERO;
    group::write(room, PlanKind::Tree.number());
    group::write(room, vertices);
    put_edges(&mut vote.random, room, shape, vertices);
}

// A width: of a deep vote almost the widest; else any, or small.
fn width(random: &mut Random) -> usize {
    match random.below(8) {
        0 => random.below(65536),
        1 => random.below(64),
        _ => random.below(9),
    }
}

// A low reading: the least, the greatest, or near 0.
fn low(random: &mut Random, width: usize) -> usize {
    match random.below(4) {
        0 => 0,
        1 => 4294967295usize.saturating_sub(width),
        _ => random.below(10).saturating_add(ZERO - 5),
    }
}

// A range of a width.
fn draw_range(vote: &mut Vote, room: &mut Room, width: usize) {
    vote.last = width;
    vote.base = low(&mut vote.random, width);
    spell_range(room, vote.base, width);
}

// A plan, whose last position and low reading are kept.
pub fn draw(vote: &mut Vote) -> Room {
    let mut room = Room::new();
    if vote.is_deep {
        let width = 65535usize.saturating_sub(vote.random.below(4));
        draw_range(vote, &mut room, width);
    } else if vote.random.once_in(2) {
        draw_tree(vote, &mut room);
    } else {
        let width = width(&mut vote.random);
        draw_range(vote, &mut room, width);
    }
    room
}
