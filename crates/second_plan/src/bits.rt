// Sets of numbers below 64, as masks: x is in the set if bit x is 1.

// Whether x is in the set.
pub fn has(set: usize, x: usize) -> bool {
    x < 64 && (set >> x) % 2 == 1
}

// The set with x.
pub fn with(set: usize, x: usize) -> usize {
    if x < 64 { set | (1 << x) } else { set }
}
