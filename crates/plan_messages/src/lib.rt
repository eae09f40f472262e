// How many different messages a sound board makes at most in a vote on a plan, with at most t faulty boards, from the plan's bytes alone: seven at each level that sends.
#![tactic(auto)]

ghost use Rattle.std.specs.Prelude.{◌≡◌, ◌≤◌, ◌+◌, T};
ghost use Rattle.base.specs.Limits.{sending_levels, max_width};
ghost use Rattle.plan.specs.Valid.{plan_valid};
ghost use Rattle.plan.specs.Tie.{as_plan};
ghost use Rattle.plan_levels.specs.Levels.{levels_of};
ghost use Rattle.plan_levels.specs.Inner.{halvings};
ghost use Rattle.plan_messages.specs.Bound.{bound_of};
ghost use Rattle.plan_messages.specs.Tie.{as_bound};

use base::Refusal;
use level::Level;
use plan::Plan;
use tree_pass::Tree;

// What a plan needs: the number of sending levels that its deepest component needs, and seven times that.
#[derive(Clone, Copy, Debug, PartialEq, Eq)]
pub struct Bound {
    pub levels: u32,
    pub messages: u32,
}

// The sending levels of a range of so many positions: the larger side of s positions has s / 2.
fn range_levels(positions: u32) -> u32
    requires { positions ≤ max_width + 1 }
    ensures { result ≡ halvings sending_levels positions }
{
    // A loop, since the turns are what is counted: a chain of halves would count them in the same words.
    let mut s = positions;
    let mut k = 0;
    while s >= 3 {
        s /= 2;
        k += 1;
    }
    k
}

// The sending levels of a plan.
fn levels(plan: &Plan) -> u32
    requires { T (plan_valid (as_plan plan.now)) }
    ensures { result ≡ levels_of (as_plan plan.now) }
{
    if plan.kind == 1 {
        let tree = Tree {
            parents: &plan.parent,
            children: &plan.child,
            positions: plan.count as usize,
        };
        return tree_levels::levels(&tree);
    }
    range_levels(plan.count)
}

// The bound for a plan, or by what it is refused.
pub fn bound_of(bytes: &[u8]) -> Result<Bound, Refusal>
    ensures { as_bound result ≡ bound_of bytes.now }
{
    let plan = plan_reader::read(bytes)?;
    let k = levels(&plan);
    Ok(Bound {
        levels: k,
        messages: Level::MESSAGES * k,
    })
}
