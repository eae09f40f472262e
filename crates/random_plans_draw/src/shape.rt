// Trees and forests, and further edges, which close cycles.
use crate::drawing::Drawing;
use random_numbers::Random;
use second_plan::table::Edge;

// A path; each vertex joined near to the one before; any tree; two at each; fifteen edges at each; a
// star; a broom, whose last vertex but fifteen has all that follow.
#[derive(Clone, Copy, Debug, PartialEq, Eq)]
pub enum Shape {
    Path,
    Near,
    Any,
    Two,
    Fifteen,
    Star,
    Broom,
}

impl Shape {
    // Any shape but a broom.
    pub fn draw(random: &mut Random) -> Shape {
        match random.below(6) {
            0 => Shape::Path,
            1 => Shape::Near,
            2 => Shape::Any,
            3 => Shape::Two,
            4 => Shape::Fifteen,
            _ => Shape::Star,
        }
    }
}

// Which vertices begin a part of their own: none, which makes a tree; the last alone; or some.
#[derive(Clone, Copy, Debug, PartialEq, Eq)]
pub enum Parts {
    None,
    Last,
    Some,
}

impl Parts {
    // Any of them.
    pub fn draw(random: &mut Random) -> Parts {
        match random.below(3) {
            0 => Parts::None,
            1 => Parts::Last,
            _ => Parts::Some,
        }
    }
}

// The vertex to which the one after the last is joined in a broom: the last or, from there on, that to
// which the last fourteen are joined.
fn handle(d: &Drawing, last: usize) -> usize {
    last.min(d.vertices.saturating_sub(15))
}

// The vertex to which vertex k is joined.
fn parent(d: &mut Drawing, shape: Shape, k: usize) -> usize {
    let last = k.saturating_sub(1);
    let back = d.random.below(4);
    let any = d.random.below(k);
    match shape {
        Shape::Path => last,
        Shape::Near => last.saturating_sub(back),
        Shape::Any => any,
        Shape::Two => last / 2,
        Shape::Fifteen => last / 14,
        Shape::Star => 0,
        Shape::Broom => handle(d, last),
    }
}

// Whether vertex k begins a part of its own.
fn is_first(d: &mut Drawing, parts: Parts, k: usize) -> bool {
    match parts {
        Parts::None => false,
        Parts::Last => k == d.vertices.saturating_sub(1),
        Parts::Some => d.random.once_in(8),
    }
}

// Joins vertex k, unless it begins a part.
fn join(d: &mut Drawing, shape: Shape, parts: Parts, k: usize) {
    let is_first = is_first(d, parts, k);
    let to = parent(d, shape, k);
    if !is_first {
        d.add(to, k);
    }
}

// A tree or a forest.
pub fn grow(d: &mut Drawing, shape: Shape, parts: Parts) {
    for k in 1..d.vertices {
        join(d, shape, parts, k);
    }
}

// An edge that is there is given again, if there is one.
fn add_again(d: &mut Drawing) {
    if let Some(Edge { a, b }) = d.any_edge() {
        d.add(a, b);
    }
}

// An edge of any two vertices, seldom the same.
fn add_any(d: &mut Drawing) {
    let one = d.random.below(d.vertices);
    let two = d.random.below(d.vertices);
    d.add(one, two);
}

// An edge between vertices drawn soon after each other.
fn add_near(d: &mut Drawing) {
    let one = d.random.below(d.vertices);
    let back = d.random.below(12).saturating_add(1);
    d.add(one, one.saturating_sub(back));
}

// An edge of the first and of one of the last two vertices.
pub fn add_closing(d: &mut Drawing) {
    let back = d.random.below(2).saturating_add(1);
    d.add(0, d.vertices.saturating_sub(back));
}

// So many further edges.
pub fn add_some(d: &mut Drawing, count: usize) {
    for _ in 0..count {
        match d.random.below(5) {
            0 => add_again(d),
            1 => add_near(d),
            2 => add_closing(d),
            _ => add_any(d),
        }
    }
}
