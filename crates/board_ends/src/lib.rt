// Set-up and reading the answer, the two calls with neither a journal nor an outgoing buffer. Neither asks anything of the caller.
#![tactic(auto)]

ghost use Rattle.std.specs.Prelude.{◌≡◌};
ghost use Rattle.party.specs.Tie.{as_party};
ghost use Rattle.board_calls.specs.Calls.{set_up_of, answered_of};
ghost use Rattle.board_calls.specs.Tie.{as_set_up, as_answered};

use base::{Question, Refusal};
use party::Party;

// Questions 1 to 11, then a party that has not started. The settings stand one by one, as README lists them.
pub fn set_up(n: u32, t: u32, own: u32, agreement: u32, bytes: &[u8]) -> Result<Party, Refusal>
    ensures { as_set_up result ≡ set_up_of n t own agreement bytes.now }
{
    let plan = plan_reader::settle(n, t, own, bytes)?;
    Ok(Party::new(n, t, own, agreement, plan))
}

// The answer, if there is one yet.
pub fn read_answer(p: Party) -> Result<Option<i64>, Refusal>
    ensures { as_answered result ≡ answered_of (as_party p) }
{
    if party_inspect::inspect(&p).is_none() {
        return Err(Question::PartyRecord.into());
    }
    Ok(board_positions::answer_at(p.plan, p.levels[0].output))
}
