// "A count c goes to the nearest step, halves towards zero, with the remainder reported".

// A step, and the remainder.
#[derive(Clone, Copy, Debug, PartialEq, Eq)]
pub struct Rounded {
    pub step: i64,
    pub rest: i64,
}

// The nearest step, of the last one not above the count and the next, or of two as near the one nearer
// to zero.
pub fn round(g: u32, count: i64) -> Rounded {
    let g = i64::from(g);
    let step = count.checked_div_euclid(g).unwrap_or(0);
    let below = count.checked_rem_euclid(g).unwrap_or(0);
    let over = g.saturating_sub(below);
    if below < over || below == over && 0 <= step {
        Rounded { step, rest: below }
    } else {
        Rounded {
            step: step.saturating_add(1),
            rest: below.saturating_sub(g),
        }
    }
}

// "the count answer is the lesser of g × y + g/2 and c when g × y is at most c, else the greater of
// g × y - g/2 and c"
pub fn count_answer(g: u32, y: i64, count: i64) -> i64 {
    let half = i64::from(g / 2);
    let middle = i64::from(g).saturating_mul(y);
    if middle <= count {
        middle.saturating_add(half).min(count)
    } else {
        middle.saturating_sub(half).max(count)
    }
}
