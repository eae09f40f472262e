// Bytes that both implementations are lent: the first's and the second's.
use crate::seats::SEATS;

#[derive(Clone, Copy)]
pub struct Both<const N: usize> {
    pub first: [u8; N],
    pub second: [u8; N],
}

// The bytes kept for a seat's journal.
pub const JOURNAL: usize = 24576;

pub type Journal = Both<JOURNAL>;

// The journals of all seats of a vote, the bench's last.
pub type Journals = [Journal; SEATS];

// An outgoing buffer, with more bytes than a call asks for.
pub const OUTGOING: usize = 2700;

pub type Outgoing = Both<OUTGOING>;

impl<const N: usize> Both<N> {
    pub fn filled(byte: u8) -> Both<N> {
        Both {
            first: [byte; N],
            second: [byte; N],
        }
    }

    // Both get the same byte, if the place lies within.
    pub fn set(&mut self, at: usize, byte: u8) {
        if at < N {
            self.first[at] = byte;
            self.second[at] = byte;
        }
    }

    // Both get the same rubbish.
    pub fn fill(&mut self, from: usize) {
        for (i, byte) in self.first.iter_mut().enumerate() {
            *byte = (from.wrapping_add(i) % 256) as u8;
        }
        self.second = self.first;
    }

    // Whether the first `length` bytes of both are the same.
    pub fn is_same(&self, length: usize) -> bool {
        let length = length.min(N);
        self.first[..length] == self.second[..length]
    }

    // The first `length` bytes become those of another.
    pub fn copy_from(&mut self, other: &Both<N>, length: usize) {
        let length = length.min(N);
        self.first[..length].copy_from_slice(&other.first[..length]);
        self.second[..length].copy_from_slice(&other.second[..length]);
    }

    // From place `length` on come so many of the first bytes once more, and those that were written so.
    pub fn repeat(&mut self, length: usize, more: usize) {
        repeat(&mut self.first, length, more);
        repeat(&mut self.second, length, more);
    }
}

// The same of one of them.
fn repeat(bytes: &mut [u8], length: usize, more: usize) {
    for i in 0..more {
        let byte = bytes.get(i).copied();
        if let (Some(byte), Some(place)) = (byte, bytes.get_mut(length.saturating_add(i))) {
            *place = byte;
        }
    }
}
