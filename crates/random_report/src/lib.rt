// Counts of a run, and how they are printed in lines. In a row a count stands at its number.
#![tactic(auto)]

use std::fmt;

// Counts in a row, each after its number; the first of them has the number `first`.
#[derive(Clone, Copy)]
pub struct Row<'a> {
    first: usize,
    counts: &'a [usize],
}

impl<'a> Row<'a> {
    // The counts of a row from one number to before another; none where it has not so many.
    pub fn new(counts: &'a [usize], first: usize, end: usize) -> Row<'a> {
        Row {
            first,
            counts: counts.get(first..end).unwrap_or(&[]),
        }
    }
}

impl fmt::Display for Row<'_> {
    fn fmt<W: fmt::Write>(&self, f: &mut fmt::Formatter<W>) -> fmt::Result {
        for (i, count) in self.counts.iter().enumerate() {
            let number = self.first.saturating_add(i);
            write!(f, " {number}: {count}")?;
        }
        Ok(())
    }
}

// One more.
pub fn count(total: &mut usize) {
    grow(total, 1);
}

// So many more.
pub fn grow(total: &mut usize, by: usize) {
    *total = total.saturating_add(by);
}

// One more, if it is so.
pub fn count_if(total: &mut usize, is: bool) {
    if is {
        count(total);
    }
}

// One more at a place of a row, if there is that place.
pub fn count_at(row: &mut [usize], place: usize) {
    if let Some(total) = row.get_mut(place) {
        count(total);
    }
}
