// Plans, as bytes and as what the checks of answers need: the distance of two positions.
use crate::varint;
pub use second_plan::table::{Edge, PlanKind};

// The most bytes of a plan.
const MOST: usize = 1280;

// A plan's bytes. What an earlier plan left behind them stays, and is read where a plan is lengthened: the program's output depends on it, so they are no Vec.
#[derive(Clone, Copy)]
pub struct Spelled {
    bytes: [u8; MOST],
    length: usize,
}

impl Default for Spelled {
    fn default() -> Spelled {
        Spelled {
            bytes: [0; MOST],
            length: 0,
        }
    }
}

impl Spelled {
    pub fn as_slice(&self) -> &[u8] {
        &self.bytes[..self.len().min(MOST)]
    }

    pub fn len(&self) -> usize {
        self.length
    }

    // There are so many bytes.
    pub fn set_len(&mut self, length: usize) {
        self.length = length;
    }

    // A byte becomes another.
    pub fn set(&mut self, at: usize, byte: u8) {
        if let Some(place) = self.bytes.get_mut(at) {
            *place = byte;
        }
    }

    // Writes the varint of a number behind.
    pub fn put(&mut self, value: usize) {
        for byte in varint::fewest(value).as_slice() {
            self.set(self.length, *byte);
            self.length = self.length.saturating_add(1);
        }
    }

    // The bytes of a range's low reading and width.
    pub fn spell_range(&mut self, low: i64, width: usize) {
        self.length = 0;
        self.put(PlanKind::Range.number());
        self.put(zigzag(low));
        self.put(width);
    }

    // The bytes of a tree.
    pub fn spell_tree(&mut self, vertices: usize, edges: &[Edge]) {
        self.length = 0;
        self.put(PlanKind::Tree.number());
        self.put(vertices);
        for edge in edges {
            self.put(edge.a);
            self.put(edge.b);
        }
    }
}

// The zigzag value of a signed number.
fn zigzag(z: i64) -> usize {
    let doubled = (z.unsigned_abs() as usize).saturating_mul(2);
    if z < 0 {
        doubled.saturating_sub(1)
    } else {
        doubled
    }
}

// A vertex of a tree by its growth. The first is its own parent.
#[derive(Clone, Copy, Default)]
pub struct Vertex {
    pub parent: usize,
    pub depth: usize,
}

// The most vertices.
pub const VERTICES: usize = 256;

// A plan: its kind, bytes and last position, a range's low reading, which is 0 of a tree, and a tree's vertices.
#[derive(Clone, Copy)]
pub struct Plan {
    pub kind: PlanKind,
    pub spelled: Spelled,
    pub last: usize,
    pub low: i64,
    pub vertices: [Vertex; VERTICES],
}

impl Default for Plan {
    fn default() -> Plan {
        Plan {
            kind: PlanKind::Tree,
            spelled: Spelled::default(),
            last: 0,
            low: 0,
            vertices: [Vertex::default(); VERTICES],
        }
    }
}

impl Plan {
    pub fn is_range(&self) -> bool {
        self.kind == PlanKind::Range
    }

    // The reading of a position.
    pub fn reading(&self, position: usize) -> i64 {
        self.low.saturating_add_unsigned(position as u64)
    }

    // The position of a reading, if it is on the plan.
    pub fn position(&self, reading: i64) -> Option<usize> {
        if reading < self.low {
            return None;
        }
        let position = reading.abs_diff(self.low) as usize;
        if self.last < position {
            None
        } else {
            Some(position)
        }
    }

    fn vertex(&self, v: usize) -> Vertex {
        self.vertices.get(v).copied().unwrap_or_default()
    }

    // The distance of two vertices: one step after another the deeper one goes to its parent, or where both are as deep the second.
    fn tree_distance(&self, from: usize, to: usize) -> usize {
        let mut a = from;
        let mut b = to;
        for steps in 0..512 {
            if a == b {
                return steps;
            }
            if self.vertex(b).depth < self.vertex(a).depth {
                a = self.vertex(a).parent;
            } else {
                b = self.vertex(b).parent;
            }
        }
        512
    }

    // The distance of two positions.
    pub fn distance(&self, a: usize, b: usize) -> usize {
        match self.kind {
            PlanKind::Tree => self.tree_distance(a, b),
            PlanKind::Range => a.abs_diff(b),
        }
    }

    // Whether a position lies on the path between two others.
    pub fn is_between(&self, y: usize, a: usize, b: usize) -> bool {
        self.distance(a, y).saturating_add(self.distance(y, b)) == self.distance(a, b)
    }
}
