// Varints (document 01 calls them groups): a whole number in seven-bit pieces, low piece first, in the fewest bytes, at most 2^32 - 1.
#![tactic(auto)]

ghost use Rattle.std.specs.Prelude.{◌≡◌, ◌+◌, ◌≤◌, length, Ok};
ghost use Rattle.base.specs.Put.{put_at};
ghost use Rattle.varint.specs.Varint.{piece_size, pieces, varint_bytes};
ghost use Rattle.varint.specs.Reading.{pieces_at, varint_at, prefixed, prefixed_error};
ghost use Rattle.varint.specs.Writing.{written_of, buffer_of};

// A piece is a number below this; a byte that is not the last has this bit set besides.
const TOP: u8 = 128;

const PIECE: u32 = TOP as u32;
// The most pieces, those after the first, and the most that can stand above the lowest one.
pub const MAX_PIECES: u32 = 5;

const LATER_PIECES: u32 = MAX_PIECES - 1;

const MAX_REST: u32 = base::MAX_NUMBER / PIECE;

// What was read, and the place past its last byte.
#[derive(Clone, Copy, Debug, PartialEq, Eq)]
pub struct Parsed<T> {
    pub value: T,
    pub next: usize,
}

// Why no varint was read.
#[derive(Clone, Copy, Debug, PartialEq, Eq)]
pub enum VarintError {
    // The bytes end inside it: the least value that further bytes could make of it.
    Short { least: u32 },
    // No further bytes could make it whole, in the fewest bytes and at most 2^32 - 1.
    Malformed,
}

// The buffer is too short from the given place on: nothing was written.
#[derive(Clone, Copy, Debug, PartialEq, Eq)]
pub struct NoRoom;

// A first byte of 128 or more before a rest that is read.
#[tactic(auto, using(crate::proofs::Laws::prefixed_large, crate::proofs::Laws::prefixed_value))]
fn prefix(b: u8, rest: Parsed<u32>) -> Result<Parsed<u32>, VarintError>
    requires { piece_size ≤ b }
    ensures { result ≡ prefixed b (Ok rest) }
{
    let high = rest.value;
    if high == 0 {
        return Err(VarintError::Malformed);
    }
    if MAX_REST < high {
        return Err(VarintError::Malformed);
    }
    Ok(Parsed {
        value: u32::from(b - TOP) + PIECE * high,
        next: rest.next,
    })
}

// A first byte of 128 or more before a rest that is not read.
#[tactic(auto, using(crate::proofs::Laws::error_large, crate::proofs::Laws::error_short))]
fn prefix_error(b: u8, error: VarintError) -> VarintError
    requires { piece_size ≤ b }
    ensures { result ≡ prefixed_error b error }
{
    match error {
        VarintError::Short { least } => {
            let high = least.max(1);
            if MAX_REST < high {
                return VarintError::Malformed;
            }
            VarintError::Short {
                least: u32::from(b - TOP) + PIECE * high,
            }
        }
        VarintError::Malformed => VarintError::Malformed,
    }
}

// The varint at `at`, of at most `left` bytes.
#[tactic(auto, using(crate::proofs::Laws::at_none, crate::proofs::Laws::at_end, crate::proofs::Laws::at_last, crate::proofs::Laws::at_more))]
fn read_pieces(s: &[u8], at: usize, left: u32) -> Result<Parsed<u32>, VarintError>
    ensures { result ≡ pieces_at left s.now at }
{
    if left == 0 {
        return Err(VarintError::Malformed);
    }
    if s.len() <= at {
        return Err(VarintError::Short { least: 0 });
    }
    let b = s[at];
    if b < TOP {
        return Ok(Parsed {
            value: u32::from(b),
            next: at + 1,
        });
    }
    match read_pieces(s, at + 1, left - 1) {
        Ok(rest) => prefix(b, rest),
        Err(error) => Err(prefix_error(b, error)),
    }
}

// The varint at `at`.
pub fn read(s: &[u8], at: usize) -> Result<Parsed<u32>, VarintError>
    ensures { result ≡ varint_at s.now at }
{
    read_pieces(s, at, MAX_PIECES)
}

// How many bytes the varint of v has: document 02's printed table, case by case.
#[tactic(auto, using(crate::proofs::Lengths::one_byte, crate::proofs::Lengths::two_bytes, crate::proofs::Lengths::three_bytes, crate::proofs::Lengths::four_bytes, crate::proofs::Lengths::five_bytes))]
pub fn size(v: u32) -> usize
    ensures { result ≡ Rattle.varint.specs.Varint.varint_length v }
{
    match v {
        0..=127 => 1,
        128..=16_383 => 2,
        16_384..=2_097_151 => 3,
        2_097_152..=268_435_455 => 4,
        _ => 5,
    }
}

// The pieces of v, at most `left` + 1 of them, are written from the buffer's first byte on; how many there are.
#[tactic(auto, using(crate::proofs::Laws::pieces_pos))]
fn write_pieces(out: &mut [u8], v: u32, left: u32) -> usize
    requires { length (pieces left v) ≤ length out.old }
    ensures { (result ≡ length (pieces left v)) × (out.new ≡ put_at out.old 0 (pieces left v)) }
{
    if left == 0 {
        out[0] = (v % PIECE) as u8;
        return 1;
    }
    if v < PIECE {
        out[0] = v as u8;
        return 1;
    }
    out[0] = (v % PIECE + PIECE) as u8;
    write_pieces(&mut out[1..], v / PIECE, left - 1) + 1
}

// The varint of v is written from `at` on; the place past it. Inner: callers have shown that there is room; `write` asks.
pub fn put(out: &mut [u8], at: usize, v: u32) -> usize
    requires { at + length (varint_bytes v) ≤ length out.old }
    ensures { (result ≡ at + length (varint_bytes v)) × (out.new ≡ put_at out.old at (varint_bytes v)) }
{
    at + write_pieces(&mut out[at..], v, LATER_PIECES)
}

// The varint of v is written from `at` on, if it fits.
#[tactic(auto, using(crate::proofs::Laws::pieces_pos))]
pub fn write(out: &mut [u8], at: usize, v: u32) -> Result<usize, NoRoom>
    ensures { (result ≡ written_of out.old at (varint_bytes v)) × (out.new ≡ buffer_of out.old at (varint_bytes v)) }
{
    let k = size(v);
    if out.len().saturating_sub(at) < k {
        return Err(NoRoom);
    }
    put(out, at, v);
    Ok(k)
}
