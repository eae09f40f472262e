// Signed readings: z is kept as z plus 2,147,483,648, which is ZERO.
use second_plan::plans::ZERO;

// The same of reading 0.
const SIGNED_ZERO: i64 = 2147483648;

// A reading z as it is kept, if z is a reading.
fn raised(z: i64) -> Option<usize> {
    usize::try_from(z.saturating_add(SIGNED_ZERO))
        .ok()
        .filter(|r| *r < 2 * ZERO)
}

// How far z lies above the reading kept as `base`, if it is a reading and does not lie below it.
pub fn above(base: usize, z: i64) -> Option<usize> {
    raised(z)?.checked_sub(base)
}

// The reading kept as r.
pub fn lowered(r: usize) -> i64 {
    i64::try_from(r).unwrap_or(0).saturating_sub(SIGNED_ZERO)
}
