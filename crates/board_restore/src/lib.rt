// Restore, a party from its journal: the records are read once for their questions, and then replayed.
#![tactic(auto)]

ghost use Rattle.std.specs.Prelude.{◌≡◌, length};
ghost use Rattle.party.specs.Run.{resting};
ghost use Rattle.party.specs.Tie.{as_party};
ghost use Rattle.board_calls.specs.Restore.{replay_from, restore_questions};
ghost use Rattle.board_calls.specs.Results.{RestoreGives};
ghost use Rattle.board_calls.specs.Tie.{as_restored};
ghost use Rattle.board_laws.specs.Inner.{started_by};
ghost use Rattle.board_restore.specs.Inner.{board_of, Checks, ScansFor, Answers, Replayable, restored_by};

use base::{Question, Refusal};
use board_calls::Restored;
use journal::{Record, RecordError};
use party::{Party, Vote};
use plan::Plan;
use varint::Parsed;

// The first question about a record that fails, in a vote on a plan of so many positions.
fn check(v: Vote, count: u32, r: Record, started: bool) -> Result<(), Question>
    ensures { Checks (board_of v count) started r result }
{
    match r {
        Record::Start {
            agreement,
            position,
        } => {
            if agreement != v.agreement {
                return Err(Question::Agreement);
            }
            if started {
                return Err(Question::NotStarted);
            }
            if count <= position {
                return Err(Question::OnPlan);
            }
        }
        Record::Taken { sender, message } => {
            if message.number != v.agreement {
                return Err(Question::Agreement);
            }
            if v.n <= u32::from(sender) {
                return Err(Question::Sender);
            }
        }
    }
    Ok(())
}

// Is a party started after a record?
fn started_by(r: Record, started: bool) -> bool
    ensures { result ≡ started_by r started }
{
    started || matches!(r, Record::Start { .. })
}

// The place past the last whole record. "Restore, each record: A whole record, or the torn last one? 21. Our number? 16. Sender below n? 14. Not a second
// start? 13. Position on the plan? 12."
fn scan_journal(v: Vote, count: u32, journal: &[u8]) -> Result<usize, Refusal>
    ensures { ScansFor v count journal.now result }
{
    let mut started = false;
    let mut at = 0;
    // records have many lengths, so their places are no counted range
    while at < journal.len() {
        match journal::read_at(journal, at) {
            Ok(
                Parsed {
                    value: record,
                    next,
                },
            ) => {
                if let Err(question) = check(v, count, record, started) {
                    return Err(Refusal {
                        question,
                        place: at,
                    });
                }
                started = started_by(record, started);
                at = next;
            }
            Err(RecordError::Torn) => return Ok(at),
            Err(RecordError::Bad) => {
                return Err(Refusal {
                    question: Question::JournalRecord,
                    place: at,
                });
            }
        }
    }
    Ok(at)
}

// A new party's records up to the place `end`, replayed one after the other, the messages of each after those before.
fn replay_all(mut party: Party, journal: &[u8], end: usize, out: &mut [u8]) -> Restored
    requires { Replayable (as_party party) journal.now end (length out.old) }
    ensures { RestoreGives (replay_from (length journal.now) journal.now 0 (resting (as_party party))) out.old (restored_by result) out.new }
{
    let mut chart = party::Chart::empty();
    let mut rules = 0;
    let mut sent = 0;
    let mut at = 0;
    // records have many lengths, so `at` is no counted index
    while at < end {
        let Ok(
            Parsed {
                value: record,
                next,
            },
        ) = journal::read_at(journal, at)
        else {
            unreachable!();
        };
        let ran = party_replay::replay(&mut party, &mut chart, record, out, sent);
        rules += ran.rules;
        sent = ran.sent;
        at = next;
    }
    Restored {
        party,
        used: end,
        sent,
        rules,
    }
}

// The plan, and the place past the last whole record.
// "Start, take, restore: Has the outgoing buffer 2,640 bytes (15 × 22 × 8)? 18." Then 1 to 11 about the settings and the plan, then the records.
fn ask(v: Vote, bytes: &[u8], journal: &[u8], room: usize) -> Result<(Plan, usize), Refusal>
    ensures { Answers v bytes.now journal.now room result }
{
    if room < level_limits::OUTGOING {
        return Err(Question::OutgoingRoom.into());
    }
    let plan = plan_reader::settle(v.n, v.t, v.own, bytes)?;
    let end = scan_journal(v, plan.count, journal)?;
    Ok((plan, end))
}

// "Restore gives the party of the whole records, in order, their length in bytes", and, by document 02, Q-5, "hands over every message of the whole
// records' history, each once, in the first order". All questions are asked first. The settings stand one by one, as README lists them.
pub fn restore(
    n: u32,
    t: u32,
    own: u32,
    agreement: u32,
    bytes: &[u8],
    journal: &[u8],
    out: &mut [u8],
) -> Result<Restored, Refusal>
    ensures { RestoreGives (restore_questions n t own agreement bytes.now journal.now (length out.old)) out.old (as_restored result) out.new }
{
    let v = Vote {
        n,
        t,
        own,
        agreement,
    };
    let (plan, end) = ask(v, bytes, journal, out.len())?;
    let party = Party::new(n, t, own, agreement, plan);
    Ok(replay_all(party, journal, end, out))
}
