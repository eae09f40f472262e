// Start and take: their questions, and what these found carried out. Neither asks anything of the caller.
#![tactic(auto)]

ghost use Rattle.std.specs.Prelude.{◌≡◌, ◌<◌, IfSome, length};
ghost use Rattle.party.specs.Typed.{Typed};
ghost use Rattle.party.specs.Tie.{as_party};
ghost use Rattle.board_calls.specs.Calls.{start_questions, take_questions};
ghost use Rattle.board_calls.specs.Results.{CallGives};
ghost use Rattle.board_calls.specs.Tie.{as_called};
ghost use Rattle.board_questions.specs.Inner.{found_by, start_from};
ghost use Rattle.board_door.specs.Inner.{Carriable, carried_by};

use base::{Question, Refusal};
use board_calls::Called;
use board_questions::{Door, ask_start, ask_take};
use journal::Record;
use party::{Chart, Party};

// What carrying a call out gives beside the party, which is lent.
#[derive(Clone, Copy)]
struct Carried {
    verdict: base::Verdict,
    used: usize,
    sent: usize,
    rules: u32,
}

impl Carried {
    // A call that does nothing: one that is refused, or that brings a message that is held already.
    fn nothing(verdict: base::Verdict, used: usize) -> Carried
        ensures { result ≡ record { verdict = verdict; used = used; sent = 0; rules = 0 } }
    {
        Carried {
            verdict,
            used,
            sent: 0,
            rules: 0,
        }
    }

    // What the call gives.
    fn with(self, party: Party) -> Called
        ensures { as_called result ≡ carried_by (as_party party) self }
    {
        Called {
            verdict: self.verdict,
            party,
            used: self.used,
            sent: self.sent,
            rules: self.rules,
        }
    }
}

// What the questions found is carried out: where there is a record, it is written, and what its call does is done. The party is changed where it lies.
// Journal, used length and outgoing buffer stand one by one here and below: they are the calls' parameters (README).
fn carry_out(
    party: &mut Party,
    chart: &mut Chart,
    asked: Result<Option<Record>, Refusal>,
    journal: &mut [u8],
    used: usize,
    out: &mut [u8],
) -> Carried
    requires { Carriable (as_party party.old) chart.old (length journal.old) used (length out.old) asked × Typed (as_party party.old) }
    ensures { CallGives (found_by (as_party party.old) asked) (as_party party.old) used journal.old out.old (carried_by (as_party party.new) result) journal.new out.new }
{
    match asked {
        Ok(Some(record)) => {
            let end = journal::append(journal, used, record);
            let ran = party_replay::replay(party, chart, record, out, 0);
            Carried {
                verdict: Ok(()),
                used: end,
                sent: ran.sent,
                rules: ran.rules,
            }
        }
        Ok(None) => Carried::nothing(Ok(()), used),
        Err(refusal) => Carried::nothing(Err(refusal), used),
    }
}

// A start: its questions, and what they found carried out.
pub fn start(p: Party, input: i64, journal: &mut [u8], used: usize, out: &mut [u8]) -> Called
    ensures { CallGives (start_questions (as_party p) input (length journal.old) used (length out.old)) (as_party p) used journal.old out.old (as_called result) journal.new out.new }
{
    start_at(
        p,
        board_positions::position_of(p.plan, input),
        journal,
        used,
        out,
    )
}

// A start at a position, if the input has one on the plan.
pub fn start_at(
    mut p: Party,
    x: Option<base::Position>,
    journal: &mut [u8],
    used: usize,
    out: &mut [u8],
) -> Called
    requires { IfSome x (λ y. y < p.plan.count) }
    ensures { CallGives (start_from (as_party p) x (length journal.old) used (length out.old)) (as_party p) used journal.old out.old (as_called result) journal.new out.new }
{
    let carried = match party_inspect::inspect(&p) {
        None => Carried::nothing(Err(Question::PartyRecord.into()), used),
        Some(mut chart) => {
            // a party that has a chart passes 19
            let door = Door {
                valid: true,
                room: journal.len(),
                used,
                out: out.len(),
            };
            let asked = ask_start(door, p.agreement, p.levels[0].entered, x);
            carry_out(&mut p, &mut chart, asked, journal, used, out)
        }
    };
    carried.with(p)
}

// A take: its questions, and what they found carried out.
pub fn take(
    mut p: Party,
    sender: u32,
    bytes: &[u8],
    journal: &mut [u8],
    used: usize,
    out: &mut [u8],
) -> Called
    ensures { CallGives (take_questions (as_party p) sender bytes.now (length journal.old) used (length out.old)) (as_party p) used journal.old out.old (as_called result) journal.new out.new }
{
    let carried = match party_inspect::inspect(&p) {
        None => Carried::nothing(Err(Question::PartyRecord.into()), used),
        Some(mut chart) => {
            // a party that has a chart passes 19
            let door = Door {
                valid: true,
                room: journal.len(),
                used,
                out: out.len(),
            };
            let asked = ask_take(door, p.vote(), &p.sets, sender, bytes);
            carry_out(&mut p, &mut chart, asked, journal, used, out)
        }
    };
    carried.with(p)
}
