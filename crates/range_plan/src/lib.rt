// The plan of a range, from its lowest and its highest reading.
#![tactic(auto)]

ghost use Rattle.std.specs.Prelude.{◌≡◌, ◌≤◌, length, take};
ghost use Rattle.base.specs.Put.{put_at};
ghost use Rattle.signed.specs.Signed as Signed;
ghost use Rattle.range_plan.specs.Range.{integer, raised_by, range_plan, fields_of};

use script_numbers::Reading;

// The longest plan of a range: its kind, and two varints.
pub const PLAN_SIZE: usize = 1 + 2 * varint::MAX_PIECES as usize;

// The largest number that a varint holds.
const MOST: u64 = base::MAX_NUMBER as u64;

// Readings stand so much higher while they are compared.
const RAISE: u64 = MOST + 1;

// The numbers of a range's plan: the one whose varint is the low reading, and the width, high minus low.
#[derive(Clone, Copy, Debug, PartialEq, Eq)]
pub struct Fields {
    pub low: u32,
    pub width: u32,
}

// The number whose varint stands for a reading: 2z, or -2z-1 of a negative z. Not signed::zigzag_of, which takes an i32: a line may have any reading.
fn zigzag(r: Reading) -> u64
    ensures { result ≡ Signed.zigzag (integer r) }
{
    let m = u64::from(r.magnitude);
    if m == 0 {
        return 0;
    }
    if r.negative {
        return 2 * m - 1;
    }
    2 * m
}

// A reading plus 2^32.
fn raised(r: Reading) -> u64
    ensures { result ≡ raised_by r }
{
    let m = u64::from(r.magnitude);
    if r.negative {
        return RAISE - m;
    }
    RAISE + m
}

// The numbers of the plan of a range, if both have varints.
pub fn fields_of(low: Reading, high: Reading) -> Option<Fields>
    ensures { result ≡ fields_of low high }
{
    let z = zigzag(low);
    let a = raised(low);
    let b = raised(high);
    if MOST < z {
        return None;
    }
    if b < a {
        return None;
    }
    if MOST < b - a {
        return None;
    }
    Some(Fields {
        low: z as u32,
        width: (b - a) as u32,
    })
}

// The plan of a range is written; its length.
pub fn write_plan(out: &mut [u8; PLAN_SIZE], low: u32, width: u32) -> usize
    ensures prefix_len { (result ≤ length out.new) × (result ≡ length (take result out.new)) }
    ensures value { (result ≡ length (range_plan low width)) × (out.new ≡ put_at out.old 0 (range_plan low width)) }
{
    let a = varint::put(out, 0, 2);
    let b = varint::put(out, a, low);
    varint::put(out, b, width)
}
