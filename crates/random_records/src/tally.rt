// What is counted over a run.
use random_records_draw::change::Change;
use random_report::{count, count_at, count_if, grow};

// How many kinds of changes are counted: several, and each of them alone.
pub const CHANGES: usize = 20;

// Changed records of a kind of change that passed and that failed question 19.
#[derive(Clone, Copy, Default)]
pub struct Asked {
    pub passed: usize,
    pub failed: usize,
}

#[derive(Clone, Copy)]
pub struct Tally {
    pub votes: usize,
    pub set_ups: usize,
    pub restores: usize,
    pub records: usize,
    // By the kind of change, several first.
    pub changes: [Asked; CHANGES],
    // Changed records by the number of levels that were entered before the change.
    pub depths: [usize; 17],
    pub calls: usize,
    pub changed_calls: usize,
    // Calls on changed records by the number of their refusal, 0 where they were accepted.
    pub refused: [usize; 25],
    pub rules: usize,
    pub most: usize,
    pub tables: usize,
    pub differences: usize,
}

impl Tally {
    // Nothing counted yet.
    pub fn new() -> Tally {
        Tally {
            votes: 0,
            set_ups: 0,
            restores: 0,
            records: 0,
            changes: [Asked::default(); CHANGES],
            depths: [0; 17],
            calls: 0,
            changed_calls: 0,
            refused: [0; 25],
            rules: 0,
            most: 0,
            tables: 0,
            differences: 0,
        }
    }

    // What both implementations give is the same, or a difference. The tally of random_plans says why that
    // is not one with this.
    pub fn compare(&mut self, is_same: bool) {
        count_if(&mut self.differences, !is_same);
    }

    // A changed record, at so many levels entered, with a change or several, and whether it passes.
    pub fn count_changed(&mut self, depth: usize, change: Option<Change>, passes: bool) {
        count(&mut self.records);
        count_at(&mut self.depths, depth);
        let place = change.map_or(0, |change| change as usize + 1);
        if let Some(asked) = self.changes.get_mut(place) {
            count(if passes {
                &mut asked.passed
            } else {
                &mut asked.failed
            });
        }
    }

    // A call on a changed record: the number of its refusal, 0 if it was accepted, and its rules.
    pub fn count_changed_call(&mut self, number: usize, rules: usize) {
        count(&mut self.changed_calls);
        count_at(&mut self.refused, number);
        grow(&mut self.rules, rules);
        self.most = self.most.max(rules);
    }
}
