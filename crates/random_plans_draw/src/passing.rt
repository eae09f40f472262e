// Plans that pass: trees of all shapes, and ranges.
use crate::drawing::Drawing;
use crate::shape::{Parts, Shape};
use crate::{plans, shape, write};
use random_numbers::Random;
use second_plan::table::PlanKind;
use second_wire::room::Room;

// How many vertices: any number, few more often than many.
fn vertices(random: &mut Random) -> usize {
    let most = random.below(255).saturating_add(1);
    random.below(most).saturating_add(1)
}

// A shape for plans that pass: a broom instead of a star, since no vertex may have more than fifteen
// edges. Any tree may, but hardly ever has.
fn any_shape(random: &mut Random) -> Shape {
    match Shape::draw(random) {
        Shape::Star => Shape::Broom,
        drawn => drawn,
    }
}

// A tree.
fn tree(d: &mut Drawing) -> Room {
    let count = vertices(&mut d.random);
    d.begin(count);
    let drawn = any_shape(&mut d.random);
    shape::grow(d, drawn, Parts::None);
    plans::spell(d)
}

// The fewest positions of which 15 levels send, 14, and so on to one; then two, of which none does.
fn border(fewer: usize) -> usize {
    if fewer < 15 { 49152 >> fewer } else { 2 }
}

// The last position: of the widest range, any, or the last before or at a border, or any before it.
fn last(random: &mut Random) -> usize {
    let any = random.below(65536);
    let next = border(random.below(16));
    let before = random.below(next);
    let back = random.below(2).saturating_add(1);
    match random.below(8) {
        0 => 65535,
        1 => any,
        2 => before,
        _ => next.saturating_sub(back),
    }
}

// A range, its high reading within its limit.
fn range(random: &mut Random) -> Room {
    let low = random.below(4294836226);
    let width = last(random);
    write::range(low, width)
}

impl Drawing {
    // A plan of a kind that passes.
    pub fn passing_plan(&mut self, kind: PlanKind) -> Room {
        match kind {
            PlanKind::Tree => tree(self),
            PlanKind::Range => range(&mut self.random),
        }
    }
}
