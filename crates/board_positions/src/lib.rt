// Inputs and answers as the caller knows them: vertices and readings.
#![tactic(auto)]

ghost use Rattle.std.specs.Prelude.{◌≡◌, ◌<◌, IfSome};
ghost use Rattle.board_calls.specs.Answers.{vertex_of, position_of, answer_of};
ghost use Rattle.board_calls.specs.Tie.{as_position};
ghost use Rattle.plan.specs.Tie.{as_plan};

// Where reading 0 stands in offset binary.
const OFFSET_ZERO: i64 = base::OFFSET_ZERO as i64;

// x, if it is a position of the plan.
fn on_plan(plan: plan::Plan, x: i64) -> Option<base::Position>
    ensures gives { as_position result ≡ vertex_of (as_plan plan) x }
    ensures on_plan { IfSome result (λ y. y < plan.count) }
{
    let x = base::Position::try_from(x).ok()?;
    (x < plan.count).then_some(x)
}

// The position of a vertex or a reading, if it is on the plan.
pub fn position_of(plan: plan::Plan, input: i64) -> Option<base::Position>
    ensures gives { as_position result ≡ position_of (as_plan plan) input }
    ensures on_plan { IfSome result (λ y. y < plan.count) }
{
    if plan.kind == 1 {
        return on_plan(plan, input);
    }
    // in offset binary, z + 2^31 - low
    let x = input.checked_add(OFFSET_ZERO - i64::from(plan.low))?;
    on_plan(plan, x)
}

// The answer at a position, a vertex or a reading, if a level has an output there. NO_OUTPUT is what a level's record holds (level::Level); here it becomes None.
pub fn answer_at(plan: plan::Plan, x: base::Position) -> Option<i64>
    ensures { result ≡ answer_of (as_plan plan) x }
{
    if x == level::NO_OUTPUT {
        return None;
    }
    if plan.kind == 1 {
        return Some(i64::from(x));
    }
    Some(i64::from(plan.low) + i64::from(x) - OFFSET_ZERO)
}
