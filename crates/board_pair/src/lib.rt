// The reading of a pair: two range votes under two agreement numbers, read as one. It asks nothing of the caller.
#![tactic(auto)]

ghost use Rattle.std.specs.Prelude.{◌≡◌};
ghost use Rattle.party.specs.Tie.{as_party};
ghost use Rattle.board_pair.specs.Pair.{pair_questions, pair_gives};
ghost use Rattle.board_pair.specs.Tie.{as_pair_answered};

use base::{Question, Refusal};
use board_calls::RANGE;

// The readings of the first and of the second vote, if both have an answer. "Its reading asks the first party's questions, the second's, then 27 for equal
// numbers and 12 for a plan that is no range."
pub fn read_pair(first: party::Party, second: party::Party) -> Result<Option<(i64, i64)>, Refusal>
    ensures { as_pair_answered result ≡ pair_gives (pair_questions (as_party first) (as_party second)) }
{
    // taken out before the records go to their readings
    let first_number = first.agreement;
    let first_kind = first.plan.kind;
    let second_number = second.agreement;
    let second_kind = second.plan.kind;
    let y = board_ends::read_answer(first)?;
    let z = board_ends::read_answer(second)?;
    if first_number == second_number {
        return Err(Question::TwoAgreements.into());
    }
    if first_kind != RANGE {
        return Err(Question::OnPlan.into());
    }
    if second_kind != RANGE {
        return Err(Question::OnPlan.into());
    }
    Ok(y.zip(z))
}
