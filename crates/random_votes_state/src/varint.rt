// Varints of numbers, as they are written into plans and messages.
use second_wire::group;
use second_wire::list::List;

// The most bytes that one is written in.
const MOST: usize = 7;

pub type Varint = List<u8, MOST>;

// A piece of a number with the top bit, which says that another follows.
fn open(piece: usize) -> u8 {
    (128 + piece % 128) as u8
}

// The varint of `value`, in the fewest bytes but at most five.
pub fn fewest(value: usize) -> Varint {
    let mut bytes = Varint::new();
    group::write(&mut bytes, value);
    bytes
}

// `value` in so many bytes; where they are more than the fewest the last is 0.
pub fn in_bytes(value: usize, count: usize) -> Varint {
    let mut bytes = Varint::new();
    let mut rest = value;
    for _ in 1..count {
        bytes.push(open(rest));
        rest /= 128;
    }
    bytes.push((rest % 128) as u8);
    bytes
}

// The first number of so many bytes and one more.
pub fn first_beyond(bytes: usize) -> usize {
    1 << (7 * bytes.min(5))
}
