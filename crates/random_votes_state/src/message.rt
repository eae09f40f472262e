// A message: the agreement number, level, kind and, but for a centre, value; or what is taken for one.
use crate::random::{Random, byte};
use crate::varint;
use arrayvec::ArrayVec;
pub use second_wire::wire::{Kind, NONE};

// Any kind.
pub fn draw_kind(random: &mut Random) -> Kind {
    Kind::ALL[random.below(6)]
}

// Any kind that has a value, which a centre has not.
pub fn draw_valued(random: &mut Random) -> Kind {
    Kind::ALL[random.below(5)]
}

// Whether the kind's value may be none: a first proposal's and a side's may not.
pub fn has_none(kind: Kind) -> bool {
    kind != Kind::FirstProposal && kind != Kind::Side
}

// Level, kind and value of a message.
#[derive(Clone, Copy)]
pub struct Said {
    pub level: usize,
    pub kind: Kind,
    pub value: usize,
}

#[derive(Drop)]
pub struct Message {
    bytes: ArrayVec<u8, 31>,
}

impl Default for Message {
    fn default() -> Message {
        Message {
            bytes: ArrayVec::new(),
        }
    }
}

impl From<&[u8]> for Message {
    fn from(bytes: &[u8]) -> Message {
        let mut message = Message::default();
        message.put(bytes);
        message
    }
}

impl Message {
    // The message of a vote that says this.
    pub fn new(agreement: usize, said: Said) -> Message {
        let mut message = Message::default();
        message.put(&varint::fewest(agreement));
        message.put(&varint::fewest(said.level));
        message.put(&varint::fewest(said.kind.number()));
        if said.kind != Kind::Centre {
            message.put(&varint::fewest(said.value));
        }
        message
    }

    // Writes bytes behind, as far as there is room.
    pub fn put(&mut self, bytes: &[u8]) {
        for byte in bytes {
            let _ = self.bytes.try_push(*byte);
        }
    }

    pub fn as_slice(&self) -> &[u8] {
        self.bytes.as_slice()
    }

    pub fn len(&self) -> usize {
        self.as_slice().len()
    }

    // The message ends after so many bytes.
    pub fn truncate(&mut self, length: usize) {
        self.bytes.truncate(length);
    }

    // It loses bytes at its end.
    pub fn cut(&mut self, random: &mut Random) {
        let length = random.below(self.len());
        self.truncate(length);
    }

    // It gets a byte more, if there is room.
    pub fn lengthen(&mut self, random: &mut Random) {
        if self.len() < 31 {
            let _ = self.bytes.try_push(byte(random.below(256)));
        }
    }

    // A byte of it becomes another.
    pub fn spoil(&mut self, random: &mut Random) {
        let at = random.below(self.len());
        let byte = byte(random.below(256));
        if let Some(place) = self.bytes.get_mut(at) {
            *place = byte;
        }
    }

    // How many varints end before a place.
    pub fn ends_before(&self, place: usize) -> usize {
        self.as_slice()
            .iter()
            .take(place)
            .filter(|byte| **byte < 128)
            .count()
    }
}

// What is read of a message: its level, its kind's number and its value.
#[derive(Clone, Copy)]
pub struct Fields {
    pub level: usize,
    pub kind: usize,
    pub value: usize,
}

// The byte that lies so far past an agreement number of so many bytes, or 0.
fn past(bytes: &[u8], number_length: usize, i: usize) -> usize {
    bytes
        .get(number_length.saturating_add(i))
        .map_or(0, |byte| usize::from(*byte))
}

impl Fields {
    // Those of a whole message whose agreement number has so many bytes; a centre's value is 0.
    pub fn of(bytes: &[u8], number_length: usize) -> Fields {
        let kind = past(bytes, number_length, 1);
        Fields {
            level: past(bytes, number_length, 0),
            kind,
            value: if kind == Kind::Centre.number() {
                0
            } else {
                past(bytes, number_length, 2)
            },
        }
    }
}
