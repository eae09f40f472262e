// Random plans.
use crate::drawing::Drawing;
use crate::shape::{Parts, Shape};
use crate::{order, shape, write};
use random_numbers::Random;
use second_wire::room::Room;

// How many vertices: few, mostly; many; the most.
fn vertices(random: &mut Random) -> usize {
    let few = random.below(10).saturating_add(2);
    let many = random.below(253).saturating_add(2);
    match random.below(8) {
        0 => 255,
        1 | 2 => many,
        3 => (many / 4).saturating_add(2),
        _ => few,
    }
}

// How many further edges: one, mostly.
fn further(random: &mut Random) -> usize {
    match random.below(6) {
        0 => 0,
        1 => random.below(4).saturating_add(1),
        2 => 2,
        _ => 1,
    }
}

// Any tree or forest with further edges.
fn draw_edges(d: &mut Drawing) {
    let shape = Shape::draw(&mut d.random);
    let parts = Parts::draw(&mut d.random);
    shape::grow(d, shape, parts);
    let count = further(&mut d.random);
    shape::add_some(d, count);
}

// A path of all vertices but the last, and an edge from its first to its last or to the one left.
fn draw_closed(d: &mut Drawing) {
    shape::grow(d, Shape::Path, Parts::Last);
    shape::add_closing(d);
}

// Edges that close cycles, or not.
fn draw_shape(d: &mut Drawing) {
    if d.random.once_in(8) {
        draw_closed(d);
    } else {
        draw_edges(d);
    }
}

// The tree drawn gets names and an order, and is written.
pub fn spell(d: &mut Drawing) -> Room {
    order::draw(d);
    write::tree(d)
}

// A tree, mostly with cycles.
fn draw_tree(d: &mut Drawing) -> Room {
    let count = vertices(&mut d.random);
    d.begin(count);
    draw_shape(d);
    spell(d)
}

// Any plan.
fn draw_whole(d: &mut Drawing) -> Room {
    match d.random.below(32) {
        0 => write::any_range(&mut d.random),
        1 => write::any(&mut d.random),
        2 => write::any_tree(&mut d.random),
        _ => draw_tree(d),
    }
}

impl Drawing {
    // A plan, which may be spoilt.
    pub fn plan(&mut self) -> Room {
        let mut room = draw_whole(self);
        if self.random.once_in(4) {
            write::spoil(self, &mut room);
        }
        room
    }
}
