// Reading a plan: a reader moves through the lent plan bytes group by group.
#![tactic(auto)]

ghost use Rattle.std.specs.Prelude.{◌≡◌};
ghost use Rattle.plan.specs.Reading.{plan_of, settled_plan, tree_from, answered, ended};
ghost use Rattle.plan.specs.Tie.{as_plan, as_plan_read};
ghost use Rattle.plan_groups.specs.Groups.{and_then};

use base::Refusal;
use plan::Plan;
use plan_groups::Kind;
pub use plan_groups::PlanReader;

// The plan of a tree: its vertex count, and an edge fewer than that.
fn read_tree(reader: &mut PlanReader) -> Result<Plan, Refusal>
    ensures tree { tree_from reader.old.bytes.now reader.old.at ≡ and_then result (λ p. ended reader.old.bytes.now reader.new.at (as_plan p)) }
    ensures bytes { reader.new.bytes ≡ reader.old.bytes }
{
    let mut edges = plan_take::take_count(reader)?;
    for _ in 1..edges.vertices() {
        plan_take::take_edge(reader, &mut edges)?;
    }
    Ok(Plan::tree(&edges))
}

// The plan that the bytes are.
pub fn read(bytes: &[u8]) -> Result<Plan, Refusal>
    ensures { as_plan_read result ≡ answered (plan_of bytes.now) }
{
    let mut reader = PlanReader::new(bytes);
    let plan = match plan_take::take_kind(&mut reader)? {
        Kind::Tree => read_tree(&mut reader)?,
        Kind::Range => plan_take::take_range(&mut reader)?,
    };
    plan_finish::end(&reader)?;
    Ok(plan)
}

// The questions of a set-up: 1 to 3 about the settings, then the plan.
pub fn settle(n: u32, t: u32, own: u32, bytes: &[u8]) -> Result<Plan, Refusal>
    ensures { as_plan_read result ≡ answered (settled_plan n t own bytes.now) }
{
    settings::check(n, t, own)?;
    read(bytes)
}
