// Plans: a tree of modes or a range of readings, and what is kept of them.
#![tactic(auto)]

ghost use Rattle.std.specs.Prelude.{◌≡◌, ◌+◌, ◌≤◌, length};
ghost use Rattle.tree.specs.Growth.{growth_order};
ghost use Rattle.base.specs.Limits.{max_width};
ghost use Rattle.plan.specs.Positions.{no_plan, tree_plan, range_plan};
ghost use Rattle.plan.specs.Tie.{as_plan};

use edges::EdgeList;
use plan_growth::RowList;

// What is kept of a plan. Unused places are 0.
#[derive(Clone, Copy)]
pub struct Plan {
    // 1: tree, 2: range, 0: no plan. A number and no enum: question 19 (`plan_valid`) is asked of every number
    pub kind: u32,
    // how many positions
    pub count: u32,
    // the low reading of a range, in offset binary
    pub low: u32,
    // a tree's edges in an order in which it grows from vertex 0: row i leads from parent[i], which is reached, to child[i], which is not.
    // Two columns and no array of rows: `as_plan` and `plan_valid` name them.
    pub parent: [u16; base::MAX_ROWS],
    pub child: [u16; base::MAX_ROWS],
}

impl Plan {
    // The plan of a tree, once all its edges are read.
    pub fn tree(edges: &EdgeList) -> Plan
        requires { length edges.now.edges + 1 ≡ edges.now.vertices }
        ensures { as_plan result ≡ tree_plan edges.now.vertices (growth_order edges.now.edges) }
    {
        let n = edges.vertices();
        let (one, two) = edges.ends();
        let RowList { parent, child, .. } = plan_growth::grow(one, two, n - 1);
        Plan {
            kind: 1,
            count: n as u32,
            low: 0,
            parent,
            child,
        }
    }

    // The plan of a range from its low reading, in offset binary, and its width.
    pub fn range(low: u32, width: u32) -> Plan
        requires { width ≤ max_width }
        ensures { as_plan result ≡ range_plan low width }
    {
        Plan {
            kind: 2,
            count: width + 1,
            low,
            parent: [0; base::MAX_ROWS],
            child: [0; base::MAX_ROWS],
        }
    }
}

// No plan: what a party keeps before a set-up.
pub fn no_plan() -> Plan
    ensures { as_plan result ≡ no_plan }
{
    Plan {
        kind: 0,
        count: 0,
        low: 0,
        parent: [0; base::MAX_ROWS],
        child: [0; base::MAX_ROWS],
    }
}
