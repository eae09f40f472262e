// Groups: seven-bit pieces, low piece first, the top bit set on every byte but the last, in the
// fewest bytes, at most 4,294,967,295.
use crate::list::List;
use crate::room;

// The most bytes of a group.
const MOST_BYTES: usize = 5;

// The largest value of a group.
pub const LARGEST: usize = 4294967295;

// Why no group stands at a place, whatever bytes follow, or none within its limits.
#[derive(Clone, Copy, Debug, PartialEq, Eq)]
pub enum Fault {
    // The bytes end inside it; the least value that it can get from further bytes.
    Cut { least: usize },
    // The bytes end inside it, and it can only come to lie above its limits.
    CutAbove,
    // It is too long or too large.
    Malformed,
    // It is whole, and outside its limits.
    Outside,
}

// A whole group: its value, and how many bytes it has.
#[derive(Clone, Copy, Debug, PartialEq, Eq)]
pub struct Group {
    pub value: usize,
    pub length: usize,
}

// The value of byte b's piece where `pieces` stand before it; above every limit for a sixth.
fn piece(b: usize, pieces: usize) -> usize {
    match pieces {
        0..=4 => (b % 128) << (7 * pieces),
        _ => 1 << 35,
    }
}

// A group of this value whose last byte, after so many pieces, is b: a needless last byte or too large
// a value is refused.
fn ended(value: usize, b: u8, pieces: usize) -> Result<Group, Fault> {
    if LARGEST < value || b == 0 && 0 < pieces {
        return Err(Fault::Malformed);
    }
    Ok(Group {
        value,
        length: pieces.saturating_add(1),
    })
}

// The least value of a group cut short after so many pieces of this value.
fn least(value: usize, pieces: usize) -> usize {
    match pieces {
        0 => 0,
        _ => value.saturating_add(piece(1, pieces)),
    }
}

// The group that the bytes begin with. After five bytes none is asked for: it is too long even where
// the bytes end there.
pub fn read(bytes: &[u8]) -> Result<Group, Fault> {
    let mut value = 0usize;
    for (pieces, b) in bytes.iter().take(MOST_BYTES).enumerate() {
        value = value.saturating_add(piece(usize::from(*b), pieces));
        if *b < 128 {
            return ended(value, *b, pieces);
        }
    }
    if MOST_BYTES <= bytes.len() {
        return Err(Fault::Malformed);
    }
    Err(Fault::Cut {
        least: least(value, bytes.len()),
    })
}

// The group that the bytes begin with, which is to be from `low` to `high`.
pub fn within(bytes: &[u8], low: usize, high: usize) -> Result<Group, Fault> {
    match read(bytes) {
        Ok(g) if g.value < low || high < g.value => Err(Fault::Outside),
        Err(Fault::Cut { least }) if high < least => Err(Fault::CutAbove),
        read => read,
    }
}

// How many bytes a group has, by document 02's printed table. Writing does not ask it.
// varint::size has the same table on purpose: the second implementation shares no code (docs/DECISIONS.md).
pub fn size(value: usize) -> usize {
    match value {
        0..=127 => 1,
        128..=16383 => 2,
        16384..=2097151 => 3,
        2097152..=268435455 => 4,
        _ => 5,
    }
}

// Writes the group of a value.
pub fn write<const N: usize>(room: &mut List<u8, N>, value: usize) {
    let mut rest = value;
    for _ in 1..MOST_BYTES {
        if rest < 128 {
            break;
        }
        room::put(room, (128 + rest % 128) as u8);
        rest /= 128;
    }
    room::put(room, (rest % 256) as u8);
}
