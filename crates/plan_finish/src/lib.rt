// The end of a plan, after its last group.
#![tactic(auto)]

ghost use Rattle.plan_finish.specs.Ending.{Ends};

use base::{Question, Refusal};
use plan_groups::PlanReader;

// Question 11: no bytes are left.
pub fn end(reader: &PlanReader) -> Result<(), Refusal>
    ensures { Ends reader.now.bytes.now reader.now.at result }
{
    if reader.at != reader.bytes.len() {
        return Err(Refusal {
            question: Question::PlanEnd,
            place: reader.at,
        });
    }
    Ok(())
}
