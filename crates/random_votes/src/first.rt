// The calls on the library.
ghost use Rattle.std.specs.Prelude.{◌≡◌};

use board::{Called, Restored};
use party::Party;
use random_votes_state::call::{Call, Request, Settings, Start, Take};
use random_votes_state::outcome::{Outcome, Refused};
use random_votes_state::vote::Vote;

// The library's record at a seat without a party.
pub fn nobody() -> Party {
    Party::new(0, 0, 0, 0, plan::no_plan())
}

// The party becomes a new one, if there is one.
fn renew(party: &mut Party, new: Result<Party, base::Refusal>) -> Result<(), Refused> {
    *party = new.map_err(Refused::from)?;
    Ok(())
}

// A set-up of a new party.
fn set_up(party: &mut Party, settings: Settings, plan: &[u8]) -> Outcome {
    let t = settings.terms;
    let new = board::set_up(t.boards, t.faults, t.own, t.number, plan);
    Outcome::new(renew(party, new))
}

// A reading.
fn read(party: &Party) -> Outcome {
    match board::read_answer(*party) {
        Ok(answer) => Outcome {
            answer,
            ..Outcome::new(Ok(()))
        },
        Err(refusal) => Outcome::new(Err(Refused::from(refusal))),
    }
}

// What a call gave, with the verdict and the answer of a reading.
fn with_reading(outcome: Outcome, reading: Outcome) -> Outcome
    ensures verdict { result.verdict ≡ reading.verdict }
    ensures answer { result.answer ≡ reading.answer }
{
    Outcome {
        verdict: reading.verdict,
        answer: reading.answer,
        ..outcome
    }
}

// What a call gave; where it was accepted, the party is read after it, and the reading's verdict counts.
fn answered(party: &Party, outcome: Outcome) -> Outcome {
    if outcome.verdict.is_err() {
        return outcome;
    }
    with_reading(outcome, read(party))
}

// What a start or take gave; where it was accepted, the answer is read.
fn called(party: &mut Party, called: Called, remainder: Option<i64>) -> Outcome {
    *party = called.party;
    let outcome = Outcome {
        used: called.used,
        sent: called.sent,
        rules: called.rules as usize,
        remainder,
        ..Outcome::new(called.verdict.map_err(Refused::from))
    };
    answered(party, outcome)
}

// A start, by an input or by a count.
fn start(
    party: &mut Party,
    start: &Start,
    journal: &mut [u8],
    used: usize,
    out: &mut [u8],
) -> Outcome {
    match start.count {
        None => {
            let done = board::start(*party, start.input, journal, used, out);
            called(party, done, None)
        }
        Some(by) => {
            let done = board::start_count(*party, by.size, by.count, journal, used, out);
            called(party, done.called, done.remainder)
        }
    }
}

// The take of a message.
fn take(
    party: &mut Party,
    take: &Take,
    journal: &mut [u8],
    used: usize,
    out: &mut [u8],
) -> Outcome {
    let message = take.message.as_slice();
    let sender = u32::try_from(take.sender).unwrap_or(u32::MAX);
    let done = board::take(*party, sender, message, journal, used, out);
    called(party, done, None)
}

// What a restore gave, of a new party; where it was accepted, the answer is read.
fn restored(party: &mut Party, restored: Result<Restored, base::Refusal>) -> Outcome {
    match restored {
        Ok(new) => {
            *party = new.party;
            let outcome = Outcome {
                used: new.used,
                sent: new.sent,
                rules: new.rules as usize,
                ..Outcome::new(Ok(()))
            };
            answered(party, outcome)
        }
        Err(refusal) => Outcome::new(Err(Refused::from(refusal))),
    }
}

// A restore of a new party.
fn restore(
    party: &mut Party,
    settings: Settings,
    plan: &[u8],
    journal: &mut [u8],
    out: &mut [u8],
) -> Outcome {
    let t = settings.terms;
    let new = board::restore(t.boards, t.faults, t.own, t.number, plan, journal, out);
    restored(party, new)
}

// The call, with what is lent to it.
pub fn make(
    v: &Vote,
    call: &Call,
    party: &mut Party,
    journal: &mut [u8],
    out: &mut [u8],
) -> Outcome {
    match &call.request {
        Request::SetUp(new) => set_up(party, *new, v.plan_of(*new)),
        Request::Start(by) => start(party, by, journal, call.used, out),
        Request::Take(message) => take(party, message, journal, call.used, out),
        Request::Read => read(party),
        Request::Restore(new) => restore(party, *new, v.plan_of(*new), journal, out),
    }
}
