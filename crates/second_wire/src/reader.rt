// Bytes that are read group by group.
use crate::group;
use crate::group::Fault;

// What is wrong with a group, and the place of its first byte.
#[derive(Clone, Copy, Debug, PartialEq, Eq)]
pub struct Broken {
    pub fault: Fault,
    pub place: usize,
}

// The bytes, and the place of the next group.
#[derive(Clone, Copy)]
pub struct Reader<'a> {
    bytes: &'a [u8],
    place: usize,
}

impl<'a> Reader<'a> {
    // Bytes that are read from a place on.
    pub fn new(bytes: &'a [u8], place: usize) -> Reader<'a> {
        Reader { bytes, place }
    }

    // The place of the next group.
    pub fn place(&self) -> usize {
        self.place
    }

    // The bytes from there on.
    fn rest(&self) -> &'a [u8] {
        self.bytes.get(self.place..).unwrap_or(&[])
    }

    // Whether no bytes are left.
    pub fn is_at_end(&self) -> bool {
        self.bytes.len() <= self.place
    }

    // The next group, which is to be from `low` to `high`.
    pub fn within(&mut self, low: usize, high: usize) -> Result<usize, Broken> {
        let place = self.place;
        let group = group::within(self.rest(), low, high).map_err(|fault| Broken { fault, place })?;
        self.place = place.saturating_add(group.length);
        Ok(group.value)
    }

    // The next group.
    pub fn group(&mut self) -> Result<usize, Broken> {
        self.within(0, group::LARGEST)
    }
}
