// Room for the messages of one call, for one record or for a plan: bytes, written one after the other.
use crate::list::List;

// Question 18: what the outgoing buffer must hold.
pub const OUTGOING: usize = 2640;

pub type Room = List<u8, OUTGOING>;

// Writes a byte, if there is room for it.
pub fn put<const N: usize>(room: &mut List<u8, N>, byte: u8) {
    room.push(byte);
}

// Copies bytes to the start of a buffer, as many as it has room for.
// `copy_from_slice` asks for equal lengths.
pub fn copy(bytes: &[u8], to: &mut [u8]) {
    for (to, from) in to.iter_mut().zip(bytes) {
        *to = *from;
    }
}
