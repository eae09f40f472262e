// A run: its vote and its counts; and a call on a record, made on both implementations, and what is
// compared of it.
use crate::calls;
use crate::calls::Outcome;
use crate::tally::Tally;
use party::Party;
use random_buffers::Both;
use random_calls::Refused;
use random_records_draw::vote::{Call, Vote};
use random_report::count;
use second_plan::question::Question;
use second_plan::table::Table;

#[derive(Drop)]
pub struct Run {
    pub vote: Vote,
    pub tally: Tally,
}

// Whether reading gives the same, where question 19 of the record gave this.
fn is_same_reading(p: Party, t: &Table, asked: Result<(), Question>) -> bool {
    let first = board::read_answer(p).map_err(Refused::from);
    match asked {
        Ok(()) => first == Ok(second::answer(t)),
        Err(question) => first == Err(Refused::from(question.at(0))),
    }
}

impl Run {
    // A call on both, and a reading of what it left: the party comes back, the table is lent. Question
    // 19 of the record gave `asked` in the second implementation. An accepted call leaves the
    // journal's used length.
    pub fn call(
        &mut self,
        p: Party,
        t: &mut Table,
        asked: Result<(), Question>,
        call: &Call,
        both: &mut Both,
    ) -> (Party, Outcome) {
        let called = calls::make_first(p, call, &mut both.first);
        let done = calls::make_second(t, asked, call, &mut both.second);
        let outcome = Outcome::of_first(&called);
        let is_same = outcome == Outcome::of_second(done, call.used)
            && both.first.is_same(&both.second, call.lent);
        count(&mut self.tally.calls);
        self.tally.compare(is_same);
        self.tally.compare(is_same_reading(called.party, t, asked));
        if outcome.verdict.is_ok() {
            self.vote.used = outcome.used;
        }
        (called.party, outcome)
    }
}
