// Journals damaged in the same way for both implementations.
use random_votes_state::both::Journal;
use random_votes_state::random::{Random, byte};

// A random byte becomes another.
fn spoil(random: &mut Random, journal: &mut Journal, length: usize) {
    let at = random.below(length);
    journal.set(at, byte(random.below(256)));
}

// One byte, or two neighbours, become small numbers, which records begin with and hold.
fn spoil_little(random: &mut Random, journal: &mut Journal, length: usize) {
    let at = random.below(length);
    journal.set(at, byte(random.below(20)));
    if random.once_in(2) {
        journal.set(at.saturating_add(1), byte(random.below(20)));
    }
}

// A few bytes past the end: the journal's first bytes once more.
fn lengthen(random: &mut Random, journal: &mut Journal, length: usize) -> usize {
    let more = random.below(length % 64 + 12);
    journal.repeat(length, more);
    length.saturating_add(more)
}

// A cut inside a field, after one to five bytes with the top bit: of up to four of them further bytes could make an agreement number, but of most other
// fields only one above its limits; five are malformed.
fn cut_inside(random: &mut Random, journal: &mut Journal, length: usize) -> usize {
    let left = random.between(1, length);
    let from = left.saturating_sub(random.between(1, 5));
    for i in from..left {
        journal.set(i, byte(random.between(128, 255)));
    }
    left
}

// The journal of so many bytes is damaged in one way or none; its length then.
pub fn damage(random: &mut Random, journal: &mut Journal, length: usize) -> usize {
    match random.below(7) {
        0 => return random.below(length.saturating_add(1)),
        1 => return lengthen(random, journal, length),
        2 => (),
        3 => spoil(random, journal, length),
        6 => return cut_inside(random, journal, length),
        _ => spoil_little(random, journal, length),
    }
    length
}
