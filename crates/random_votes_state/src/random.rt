// Pseudo-random numbers.
use random_numbers::shifted;
pub use random_numbers::{Random, byte};

// A reading from `low` to `high`, which is not the lesser.
pub fn reading(random: &mut Random, low: i64, high: i64) -> i64 {
    let k = high.abs_diff(low).saturating_add(1);
    low.saturating_add_unsigned(random.below(k as usize) as u64)
}

// Each item changes places with any one.
pub fn exchange<T>(random: &mut Random, items: &mut [T]) {
    for i in 0..items.len() {
        let j = random.below(items.len());
        items.swap(i, j);
    }
}

// The number that follows, in a vote with this salt, from a key and a board.
pub fn fixed(salt: usize, key: usize, board: usize) -> usize {
    let x = salt ^ (key << 24) ^ (board << 40);
    shifted(shifted(shifted(x))) >> 20
}
