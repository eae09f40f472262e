// Calls on records, changed and unchanged, and what is compared of them.
use crate::calls;
use crate::trial::Run;
use party::Party;
use random_buffers::Both;
use random_calls::{number_of, wide};
use random_records_draw::vote::Call;
use random_records_draw::{change, lead};
use random_records_sheet::{party_of, sheet_of};
use random_report::count;
use second_plan::question::Question;
use second_plan::table::Table;

// Question 19 of a party's record, by the second implementation, which fills the table.
fn inspect(p: &Party, t: &mut Table) -> Result<(), Question> {
    second_inspect::inspect(&sheet_of(p), t)
}

impl Run {
    // A record and a table that say the same: the table made of the record is compared with it.
    pub fn check(&mut self, p: &Party, t: &Table) {
        let mut made = Table::new();
        let passes = inspect(p, &mut made).is_ok();
        self.tally.compare(passes);
        self.tally.compare(made.says_same(t));
        count(&mut self.tally.tables);
    }

    // Draws a call on a record, which has its own agreement number.
    fn draw(&mut self, p: &Party, t: &Table) -> Call {
        lead::draw_other(&mut self.vote, t, wide(p.agreement))
    }

    // The next call on a changed record, of which question 19 gave `asked`, or on what came back.
    fn next(
        &mut self,
        p: Party,
        t: &mut Table,
        asked: Result<(), Question>,
        both: &mut Both,
    ) -> Party {
        let call = self.draw(&p, t);
        let (after, outcome) = self.call(p, t, asked, &call, both);
        self.tally
            .count_changed_call(number_of(outcome.verdict), outcome.rules);
        after
    }

    // Three calls on a record that passed.
    fn follow(&mut self, p: Party, t: &mut Table, both: &mut Both) {
        let first = self.next(p, t, Ok(()), both);
        let second = self.next(first, t, Ok(()), both);
        let third = self.next(second, t, Ok(()), both);
        self.check(&third, t);
    }

    // A call on a record that is refused, which comes back as given.
    fn refuse(&mut self, p: Party, t: &mut Table, asked: Result<(), Question>, both: &mut Both) {
        let before = sheet_of(&p);
        let after = self.next(p, t, asked, both);
        self.tally.compare(before == sheet_of(&after));
    }

    // The record of a party in a vote is changed, asked question 19 by the second implementation, and
    // called, on a table of its own; the vote goes on without that.
    pub fn trial(&mut self, p: &Party, t: &Table, both: &mut Both) {
        let used = self.vote.used;
        let mut x = sheet_of(p);
        let change = change::make_change(&mut self.vote, &mut x, t);
        let changed = party_of(&x);
        let mut table = Table::new();
        let asked = inspect(&changed, &mut table);
        self.tally
            .count_changed(self.vote.depth, change, asked.is_ok());
        if asked.is_ok() {
            self.follow(changed, &mut table, both);
        } else {
            self.refuse(changed, &mut table, asked, both);
        }
        self.vote.used = used;
    }

    // The record that stands for no party fails question 19 in both: as the library's record, and in the
    // second implementation's own party, whose table is empty.
    pub fn no_party(&mut self, p: Party, t: &mut Table, both: &mut Both) {
        let asked = inspect(&p, &mut Table::new());
        self.tally.compare(asked == Err(Question::Party));
        let call = self.draw(&p, t);
        self.call(p, t, asked, &call, both);
        let done = calls::make_second(t, Ok(()), &call, &mut both.second);
        self.tally.compare(done == Err(Question::Party.at(0)));
    }
}
