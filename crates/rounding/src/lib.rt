// Counts rounded to steps, and a step's answer as a count.
#![tactic(auto)]

ghost use Rattle.std.specs.Prelude.{◌≡◌, ◌^◌, ◌<◌, T};
ghost use Rattle.std.specs.Int.Signed.{mag};
ghost use Rattle.rounding.specs.Rounding.{size_passes, with_sign, nearest_step, remainder, count_answer};

// How many counts make a step.
pub const MIN_STEP_SIZE: u32 = 2;

pub const MAX_STEP_SIZE: u32 = 1000;

// The step that a count goes to, and what is left over.
#[derive(Clone, Copy)]
pub struct Rounded {
    pub step: i64,
    pub remainder: i64,
}

pub fn size_passes(g: u32) -> bool
    ensures { result ≡ size_passes g }
{
    g % 2 == 0 && (MIN_STEP_SIZE <= g && g <= MAX_STEP_SIZE)
}

// m with the sign of c.
fn with_sign(c: i64, m: u64) -> i64
    requires { m < 2 ^ 63 }
    ensures { result ≡ with_sign c m }
{
    if c < 0 { -(m as i64) } else { m as i64 }
}

// By magnitude, since the count furthest below zero has no opposite.
pub fn round(g: u32, count: i64) -> Rounded
    requires { T (size_passes g) }
    ensures { (result.step ≡ nearest_step g count) × (result.remainder ≡ remainder g count) }
{
    let size = u64::from(g);
    let m = count.unsigned_abs();
    let steps = m / size;
    let rest = m % size;
    if rest <= size / 2 {
        return Rounded {
            step: with_sign(count, steps),
            remainder: with_sign(count, rest),
        };
    }
    Rounded {
        step: with_sign(count, steps + 1),
        remainder: 0 - with_sign(count, size - rest),
    }
}

// The answer at the step y as a count, for a board that started from this count.
pub fn count_answer(g: u32, count: i64, y: i64) -> i64
    requires { T (size_passes g) × (mag y < 2 ^ 33) }
    ensures { result ≡ count_answer g count y }
{
    let at = i64::from(g) * y;
    let half = i64::from(g / 2);
    if at <= count {
        (at + half).min(count)
    } else {
        (at - half).max(count)
    }
}
