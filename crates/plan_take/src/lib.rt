// What each group of a plan says, asked in the order of reading: questions 4 to 10. A refusal's place is that of the group that it speaks of.
#![tactic(auto)]

ghost use Rattle.std.specs.Prelude.{◌≡◌, [], ℕ, suc, ◌+◌, ◌-◌, ◌≤◌, ◌<◌, length, OnOk, IfOk};
ghost use Rattle.base.specs.Limits.{max_vertices};
ghost use Rattle.edges.specs.Reading.{varint_then, edges_from};
ghost use Rattle.plan.specs.Reading.{ended, tree_from, range_from, plan_from};
ghost use Rattle.plan.specs.Tie.{as_plan};
ghost use Rattle.plan_groups.specs.Groups.{After, and_then, tree_end};
ghost use Rattle.plan_groups.specs.Kinds.{plan_by};

use base::{Question, Refusal};
use edges::EdgeList;
use plan::Plan;
use plan_groups::{Kind, PlanReader};

// Question 4: a whole and well formed group.
fn take_group(reader: &mut PlanReader) -> Result<u32, Refusal>
    ensures group { (f : After) → varint_then reader.old.bytes.now reader.old.at f ≡ and_then result (λ x. f x reader.new.at) }
    ensures bytes { reader.new.bytes ≡ reader.old.bytes }
{
    let place = reader.at;
    reader.next_varint().map_err(|_| Refusal {
        question: Question::PlanVarint,
        place,
    })
}

// Question 5: the kind.
#[tactic(auto, unfolding(plan::specs::Reading::plan_from))]
pub fn take_kind(reader: &mut PlanReader) -> Result<Kind, Refusal>
    ensures kind { plan_from reader.old.bytes.now reader.old.at ≡ and_then result (λ kind. plan_by kind reader.old.bytes.now reader.new.at) }
    ensures bytes { reader.new.bytes ≡ reader.old.bytes }
{
    let place = reader.at;
    let number = take_group(reader)?;
    Kind::try_from(number).map_err(|question| Refusal { question, place })
}

// Question 6: a tree's vertex count.
pub fn take_count(reader: &mut PlanReader) -> Result<EdgeList, Refusal>
    ensures count { tree_from reader.old.bytes.now reader.old.at ≡ and_then result (λ t. edges_from t.vertices (t.vertices - 1) reader.old.bytes.now reader.new.at [] (tree_end t.vertices reader.old.bytes.now)) }
    ensures none { IfOk result (λ t. (t.edges ≡ []) × (1 ≤ t.vertices)) }
    ensures bytes { reader.new.bytes ≡ reader.old.bytes }
{
    let place = reader.at;
    let count = take_group(reader)? as usize;
    if count < 1 || base::MAX_VERTICES < count {
        return Err(Refusal {
            question: Question::VertexCount,
            place,
        });
    }
    Ok(EdgeList::new(count))
}

// Questions 7 to 9: a further edge. Both its ends are read before they are asked.
#[tactic(auto, unfolding(edges::specs::Reading::edges_from))]
pub fn take_edge(reader: &mut PlanReader, edges: &mut EdgeList) -> Result<(), Refusal>
    requires { length edges.old.edges + 1 < edges.old.vertices }
    ensures edge { (k : ℕ) → edges_from edges.old.vertices (suc k) reader.old.bytes.now reader.old.at edges.old.edges (tree_end edges.old.vertices reader.old.bytes.now)
        ≡ and_then result (λ _. edges_from edges.old.vertices k reader.old.bytes.now reader.new.at edges.new.edges (tree_end edges.old.vertices reader.old.bytes.now)) }
    ensures more { OnOk result (length edges.new.edges ≡ length edges.old.edges + 1) }
    ensures same { (edges.new.vertices ≡ edges.old.vertices) × (reader.new.bytes ≡ reader.old.bytes) }
{
    let one = take_group(reader)? as usize;
    let place = reader.at;
    let two = take_group(reader)? as usize;
    if let Err(question) = edges.check(one, two) {
        return Err(Refusal { question, place });
    }
    edges.add(one, two);
    Ok(())
}

// Question 10: a range's low reading and its width. Both are read before they are asked.
pub fn take_range(reader: &mut PlanReader) -> Result<Plan, Refusal>
    ensures range { range_from reader.old.bytes.now reader.old.at ≡ and_then result (λ p. ended reader.old.bytes.now reader.new.at (as_plan p)) }
    ensures bytes { reader.new.bytes ≡ reader.old.bytes }
{
    let low = take_group(reader)?;
    let place = reader.at;
    let width = take_group(reader)?;
    let reading = plan_groups::low_within(low, width).map_err(|question| Refusal {
        question,
        place,
    })?;
    Ok(Plan::range(reading, width))
}
