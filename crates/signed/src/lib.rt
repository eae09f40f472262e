// Signed numbers as varints: 2z for z of 0 or more, else -2z-1.
#![tactic(auto)]

ghost use Rattle.std.specs.Prelude.{◌≡◌};
ghost use Rattle.varint.specs.Writing.{written_of, buffer_of};
ghost use Rattle.signed.specs.Signed.{zigzag, unzigzag, signed_at, signed_bytes, offset_of_zigzag};

use varint::{NoRoom, Parsed, VarintError};

// Where -1 stands in offset binary.
const MINUS_ONE: u32 = base::OFFSET_ZERO - 1;

// The whole number whose varint stands for z.
pub fn zigzag_of(z: i32) -> u32
    ensures { result ≡ zigzag z }
{
    if z < 0 {
        return 2 * (-1 - z).unsigned_abs() + 1;
    }
    2 * z.unsigned_abs()
}

// The signed number that the varint of v stands for.
pub fn number_of(v: u32) -> i32
    ensures { result ≡ unzigzag v }
{
    let half = (v / 2) as i32;
    if v % 2 == 0 {
        return half;
    }
    -1 - half
}

// Offset binary of the number that the varint of v stands for.
pub fn offset_of_zigzag(v: u32) -> u32
    ensures { result ≡ offset_of_zigzag v }
{
    if v % 2 == 0 {
        return base::OFFSET_ZERO + v / 2;
    }
    MINUS_ONE - v / 2
}

// The signed number at `at`, or why none was read: as for a varint.
pub fn read(s: &[u8], at: usize) -> Result<Parsed<i32>, VarintError>
    ensures { result ≡ signed_at s.now at }
{
    let Parsed { value, next } = varint::read(s, at)?;
    let value = number_of(value);
    Ok(Parsed { value, next })
}

// The varint of z is written from `at` on, if it fits.
pub fn write(out: &mut [u8], at: usize, z: i32) -> Result<usize, NoRoom>
    ensures { (result ≡ written_of out.old at (signed_bytes z)) × (out.new ≡ buffer_of out.old at (signed_bytes z)) }
{
    varint::write(out, at, zigzag_of(z))
}
