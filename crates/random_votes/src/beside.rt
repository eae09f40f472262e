// The calls on the second implementation.
use random_votes_state::call::{Call, Request, Start, Take};
use random_votes_state::outcome::{Outcome, Refused};
use random_votes_state::vote::Vote;
use second::record::Done;
use second_plan::question::Refusal;
use second_plan::table::Table;

// A reading, which is never refused.
fn read(table: &Table) -> Outcome {
    Outcome {
        answer: second::answer(table),
        ..Outcome::new(Ok(()))
    }
}

// What a start, take or restore gave, and the answer after it; a refused one leaves the used length, which is 0 of a restore.
fn outcome(table: &Table, done: Result<Done, Refusal>, used: usize) -> Outcome {
    match done {
        Ok(done) => Outcome {
            verdict: Ok(()),
            used: done.used,
            sent: done.sent,
            rules: done.rules,
            answer: second::answer(table),
            remainder: None,
        },
        Err(refusal) => Outcome {
            used,
            ..Outcome::new(Err(Refused::from(refusal)))
        },
    }
}

// A start by an input, or by a count, whose remainder it gives where it is accepted.
fn start(
    table: &mut Table,
    start: &Start,
    journal: &mut [u8],
    used: usize,
    out: &mut [u8],
) -> Outcome {
    match start.count {
        None => {
            let done = second::start(table, start.input, journal, used, out);
            outcome(table, done, used)
        }
        Some(by) => {
            let counted = second_counts::start(table, by.size, by.count, journal, used, out);
            Outcome {
                remainder: counted.ok().map(|counted| counted.rest),
                ..outcome(table, counted.map(|counted| counted.done), used)
            }
        }
    }
}

// The take of a message.
fn take(
    table: &mut Table,
    take: &Take,
    journal: &mut [u8],
    used: usize,
    out: &mut [u8],
) -> Result<Done, Refusal> {
    let message = take.message.as_slice();
    let sender = u32::try_from(take.sender).unwrap_or(u32::MAX);
    second::take(table, sender, message, journal, used, out)
}

// The call, with what is lent to it.
pub fn make(
    v: &Vote,
    call: &Call,
    table: &mut Table,
    journal: &mut [u8],
    out: &mut [u8],
) -> Outcome {
    let used = call.used;
    match &call.request {
        Request::SetUp(new) => {
            let done = second::set_up(table, &new.terms, v.plan_of(*new));
            Outcome::new(done.map_err(Refused::from))
        }
        Request::Start(by) => start(table, by, journal, used, out),
        Request::Take(message) => {
            let done = take(table, message, journal, used, out);
            outcome(table, done, used)
        }
        Request::Read => read(table),
        Request::Restore(new) => {
            let plan = v.plan_of(*new);
            let done = second::restore(table, &new.terms, plan, journal, out);
            outcome(table, done, 0)
        }
    }
}
