// Counts over a whole run. In a row a count stands at its number.

pub use random_report::{count, count_at, grow};

// Refusals by their number.
pub type Refusals = [usize; 32];

#[derive(Drop, Default)]
pub struct Totals {
    pub votes: usize,
    pub wide_ranges: usize,
    pub large_trees: usize,
    pub calls: usize,
    // Accepted calls by their request, and refused ones.
    pub accepted: [usize; 6],
    pub refused: Refusals,
    pub broken: Broken,
    pub lengths: Lengths,
    pub rules: Rules,
    // Messages handed over by their kind, and lies taken by their level.
    pub kinds: [usize; 8],
    pub lies: [usize; 16],
    // Lies taken of which another board was told otherwise, and those among the last deliveries.
    pub two_tongued: usize,
    pub last_lies: usize,
    pub cuts: Cuts,
    pub answers: usize,
    pub split_votes: usize,
    // The most different messages of a sound board at a level, and how many were too many.
    pub most_messages: usize,
    pub beyond: usize,
    pub pairs: Pairs,
    pub counts: Counts,
    // Starts and takes whose rules are not as many as reported, calls on which the implementations differ, and wrong or missing answers.
    pub miscounted: usize,
    pub differences: usize,
    pub faulty_answers: usize,
}

// By field (1 for the number to 4 for the value): messages refused by 15, of these those that end before the field; by 22, of these those that end inside it; by
// 23; by 24, by the field before the spare byte. Journals refused by 21 whose last field is cut above its limit.
#[derive(Drop, Default)]
pub struct Broken {
    pub cut: [usize; 8],
    pub cut_before: [usize; 8],
    pub malformed: [usize; 8],
    pub malformed_cut: [usize; 8],
    pub outside: [usize; 8],
    pub spare_after: [usize; 8],
    pub journals_above: usize,
}

// Starts by the length in bytes of the position; by that of the agreement number votes, records that filled the lent journal, and records for which it was a byte
// too short.
#[derive(Drop, Default)]
pub struct Lengths {
    pub positions: [usize; 8],
    pub numbers: [usize; 8],
    pub filled: [usize; 8],
    pub byte_short: [usize; 8],
}

// Rules applied by boards and by the bench, by their number; levels entered by boards; results by grade.
#[derive(Drop, Default)]
pub struct Rules {
    pub boards: [usize; 16],
    pub bench: [usize; 16],
    pub entered: [usize; 16],
    pub grades: [usize; 4],
}

#[derive(Drop, Default)]
pub struct Cuts {
    pub all: usize,
    // Cuts after a reading, and of a board that was down.
    pub after_reading: usize,
    pub while_down: usize,
    // Cuts at which a wire module forgot its queue, messages lost so, votes with such losses, and those of them whose end is as demand 3 says.
    pub queues_lost: usize,
    pub messages_lost: usize,
    pub lossy_votes: usize,
    pub came_through: usize,
    // Messages handed over by restores, torn records, and starts lost.
    pub given_again: usize,
    pub torn: usize,
    pub starts_lost: usize,
}

// Answers of sound boards that were read by another call than the reading; cuts after such, and those of them before which it alone guarded the last records.
#[derive(Drop, Default)]
pub struct OtherReadings {
    pub answers: usize,
    pub cuts: usize,
    pub guards: usize,
}

impl OtherReadings {
    // A cut followed, before which the reading alone guarded the last records, or not; or none did.
    pub fn count_cut(&mut self, alone: Option<bool>) {
        if let Some(alone) = alone {
            count(&mut self.cuts);
            if alone {
                count(&mut self.guards);
            }
        }
    }
}

#[derive(Drop, Default)]
pub struct Pairs {
    // Pair readings with an answer; without one, where neither board has one, only the first, only the second.
    pub answered: usize,
    pub neither: usize,
    pub first_only: usize,
    pub second_only: usize,
    pub refused: Refusals,
    pub readings: OtherReadings,
    // Pairs of votes with pair answers one apart: in the first reading only, in the second only, in both.
    pub first_apart: usize,
    pub second_apart: usize,
    pub both_apart: usize,
}

#[derive(Drop, Default)]
pub struct Counts {
    // Starts by count, also by their remainder: half a step below, less below, 0, less than half a step above, half a step above.
    pub starts: usize,
    pub starts_refused: Refusals,
    pub remainders: [usize; 6],
    // Count readings with an answer and without.
    pub answered: usize,
    pub unanswered: usize,
    pub refused: Refusals,
    pub readings: OtherReadings,
    // Votes by how far their count answers lie apart: not, at most a step, less than two, exactly two.
    pub apart: [usize; 4],
}
