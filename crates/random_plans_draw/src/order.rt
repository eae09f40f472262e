// The names of vertices, and the order and the direction of the edges drawn.
use crate::drawing::Drawing;
use second_plan::table::Edge;

// Names by number, from the first or from the last, or shuffled.
fn draw_names(d: &mut Drawing) {
    let is_turned = d.random.once_in(2);
    d.names.clear();
    for k in 0..d.vertices {
        d.names.push(k);
    }
    if is_turned {
        d.names.as_mut_slice().reverse();
    }
    if d.random.once_in(2) {
        d.random.shuffle(d.names.as_mut_slice());
    }
}

// The last edge and any other change places.
fn move_last(d: &mut Drawing) {
    let i = d.random.below(d.edges.len());
    let edges = d.edges.as_mut_slice();
    if i < edges.len() {
        let last = edges.len() - 1;
        edges.swap(i, last);
    }
}

// Each edge is turned, or not.
fn turn_some(d: &mut Drawing) {
    for edge in d.edges.as_mut_slice() {
        if d.random.once_in(2) {
            *edge = Edge {
                a: edge.b,
                b: edge.a,
            };
        }
    }
}

// From the last to the first; shuffled; or with the last somewhere.
fn arrange(d: &mut Drawing) {
    match d.random.below(8) {
        0 => d.edges.as_mut_slice().reverse(),
        1..=3 => d.random.shuffle(d.edges.as_mut_slice()),
        _ => move_last(d),
    }
}

// Names are drawn, and the edges get some order, each in either direction.
pub fn draw(d: &mut Drawing) {
    draw_names(d);
    turn_some(d);
    if !d.random.once_in(6) {
        arrange(d);
    }
}
