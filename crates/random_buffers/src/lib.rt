// The buffers that calls are lent, of both implementations.
#![tactic(auto)]

use random_calls::part;

// How many bytes are kept for a journal, and for an outgoing buffer: more than a call asks for.
pub const JOURNAL: usize = 16384;

pub const OUTGOING: usize = 2700;

// How many bytes of the journal and of the outgoing buffer are lent to a call.
#[derive(Clone, Copy, Debug, PartialEq, Eq)]
pub struct Lent {
    pub journal: usize,
    pub out: usize,
}

// The buffers of one implementation.
#[derive(Clone, Copy)]
pub struct Buffers {
    pub journal: [u8; JOURNAL],
    pub out: [u8; OUTGOING],
}

impl Buffers {
    // Buffers of some rubbish.
    pub fn new() -> Buffers {
        Buffers {
            journal: [7; JOURNAL],
            out: [7; OUTGOING],
        }
    }

    // Whether what was lent of the journals, and the whole outgoing buffers, are the same.
    pub fn is_same(&self, other: &Buffers, lent: Lent) -> bool {
        part(&self.journal, 0, lent.journal) == part(&other.journal, 0, lent.journal)
            && self.out == other.out
    }
}

// Those of the library and those of the second implementation.
#[derive(Clone, Copy)]
pub struct Both {
    pub first: Buffers,
    pub second: Buffers,
}

impl Both {
    // Both hold the same rubbish.
    pub fn new() -> Both {
        Both {
            first: Buffers::new(),
            second: Buffers::new(),
        }
    }
}
