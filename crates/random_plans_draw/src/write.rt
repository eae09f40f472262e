// The bytes of plans, whole and spoilt.
use crate::drawing::Drawing;
use random_numbers::{Random, byte};
use second_plan::table::PlanKind;
use second_wire::room::Room;
use second_wire::{group, room};

// The tree drawn.
pub fn tree(d: &Drawing) -> Room {
    let mut room = Room::new();
    group::write(&mut room, PlanKind::Tree.number());
    group::write(&mut room, d.vertices);
    for edge in d.edges.as_slice() {
        group::write(&mut room, d.name(edge.a));
        group::write(&mut room, d.name(edge.b));
    }
    room
}

// A range of these groups.
pub fn range(low: usize, width: usize) -> Room {
    let mut room = Room::new();
    group::write(&mut room, PlanKind::Range.number());
    group::write(&mut room, low);
    group::write(&mut room, width);
    room
}

// A range of any low reading and width.
pub fn any_range(random: &mut Random) -> Room {
    let low = random.below(4294967296);
    let width = random.below(70000);
    range(low, width)
}

// So many bytes below a number.
fn bytes(random: &mut Random, length: usize, high: usize) -> Room {
    let mut room = Room::new();
    for _ in 0..length {
        room::put(&mut room, byte(random.below(high)));
    }
    room
}

// Any bytes, at times small numbers only.
pub fn any(random: &mut Random) -> Room {
    let length = random.below(40);
    let high = random.below(256).saturating_add(1);
    bytes(random, length, high)
}

// A byte becomes another, if it is there.
fn replace(room: &mut Room, at: usize, value: usize) {
    if let Some(cell) = room.as_mut_slice().get_mut(at) {
        *cell = byte(value);
    }
}

// A tree whose edges have any ends.
pub fn any_tree(random: &mut Random) -> Room {
    let vertices = random.below(120).saturating_add(2);
    let mut room = bytes(random, vertices.saturating_mul(2), vertices);
    replace(&mut room, 0, PlanKind::Tree.number());
    replace(&mut room, 1, vertices);
    room
}

// The place of a byte to be spoilt: the kind's, the vertex count's, or any.
fn spoilt_place(random: &mut Random, length: usize) -> usize {
    let any = random.below(length);
    match random.below(8) {
        0 => 0,
        1 => 1,
        _ => any,
    }
}

// What it becomes: the first byte of a longer group, 0, one more than the last vertex, or any.
fn spoilt_value(d: &mut Drawing) -> usize {
    let any = d.random.below(256);
    match d.random.below(6) {
        0 => 128,
        1 => 0,
        2 => d.vertices,
        _ => any,
    }
}

// Some byte becomes another.
fn spoil_byte(d: &mut Drawing, room: &mut Room) {
    let at = spoilt_place(&mut d.random, room.len());
    let value = spoilt_value(d);
    replace(room, at, value);
}

// Some two bytes become a needlessly long group of 0.
fn spoil_group(random: &mut Random, room: &mut Room) {
    let at = random.below(room.len().saturating_sub(1));
    replace(room, at, 128);
    replace(room, at.saturating_add(1), 0);
}

// Spoils the bytes: fewer, more, or others.
pub fn spoil(d: &mut Drawing, room: &mut Room) {
    let fewer = d.random.below(room.len());
    let more = d.random.below(3);
    match d.random.below(6) {
        0 => room.truncate(fewer),
        1 => {
            for _ in 0..=more {
                room::put(room, 0);
            }
        }
        2 => spoil_group(&mut d.random, room),
        _ => spoil_byte(d, room),
    }
}
