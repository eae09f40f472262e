// Components of a plan: size, centre, ports, neighbours, sides. A range takes a constant time for each, a tree at most two passes over its rows.
#![tactic(auto)]

ghost use Rattle.std.specs.Prelude.{◌≡◌, ◌≤◌, T, replicate};
ghost use Rattle.base.specs.Limits.{max_vertices};
ghost use Rattle.tree.specs.Component.{upto};
ghost use Rattle.tree.specs.Inner.{middle};
ghost use Rattle.plan.specs.Valid.{plan_valid};
ghost use Rattle.plan.specs.Tie.{as_plan};
ghost use Rattle.component.specs.Component.{size_of, port_of, neighbour_of, side_of};
ghost use Rattle.component.specs.Inner.{port_at, Lent, OfPlan, members, Flat, Holds, Enterable, Surveyed, HasSide, Finds, Surveys};

use tree_pass::Tree;

// A component of a plan. It is made once for a call and changed in place, from a level's component to its side: a copy is allowed, but costs its bytes.
#[derive(Clone, Copy)]
pub struct Component {
    // Both kinds' fields side by side: an enum would say the kind a second time, beside `plan.kind`, and could differ from it.
    // of a range: the first and the last position
    pub low: base::Position,
    pub high: base::Position,
    // of a tree: 1 for each member as it is entered, and after the survey the member's port and one more; 0 elsewhere
    pub ports: [u8; base::MAX_VERTICES],
}

// The centre of a component of three or more positions, and how many neighbours it has there.
#[derive(Clone, Copy)]
pub struct Centre {
    pub centre: base::Position,
    pub degree: u32,
}

// What the rules ask of a component of three or more positions, and of the board's position in it.
#[derive(Clone, Copy)]
pub struct Survey {
    pub centre: base::Position,
    pub degree: u32,
    pub port: u8,
}

// A tree plan's rows.
fn rows_of(plan: &plan::Plan) -> Tree<'_>
    requires { Lent (as_plan plan.now) × T (plan_valid (as_plan plan.now)) × (plan.now.kind ≡ 1) }
    ensures { (result.parents.now ≡ plan.now.parent) × (result.children.now ≡ plan.now.child) × (result.positions ≡ plan.now.count) }
{
    Tree {
        parents: &plan.parent,
        children: &plan.child,
        positions: plan.count as usize,
    }
}

// The centre of a component of a range.
fn midpoint(low: base::Position, high: base::Position) -> base::Position
    requires { low ≤ high }
    ensures { result ≡ middle low high }
{
    low + (high - low) / 2
}

// The port of x in a component of a range whose centre is m: a side's number, 0 at the centre, as messages and records have it (`port_at`).
fn range_port(m: base::Position, x: base::Position) -> u8
    ensures { result ≡ port_at m x }
{
    if x < m {
        return 1;
    }
    if m < x {
        return 2;
    }
    0
}

impl Component {
    // Nothing yet.
    pub fn empty() -> Component
        ensures { result ≡ record { low = 0; high = 0; ports = replicate max_vertices 0 } }
    {
        Component {
            low: 0,
            high: 0,
            ports: [0; base::MAX_VERTICES],
        }
    }

    // All positions of a plan.
    pub fn enter_whole(&mut self, plan: &plan::Plan)
        requires { T (plan_valid (as_plan plan.now)) }
        ensures { Holds (as_plan plan.now) self.new (upto plan.now.count) }
    {
        if plan.kind == 1 {
            self.ports = [0; base::MAX_VERTICES];
            marks::fill(&mut self.ports, plan.count as usize);
        } else {
            self.low = 0;
            self.high = plan.count - 1;
        }
    }

    // Is x one of its positions?
    pub fn contains(&self, plan: &plan::Plan, x: base::Position) -> bool
        ensures { result ≡ members (as_plan plan.now) self.now x }
    {
        if plan.kind == 1 {
            return marks::has_number(&self.ports, x as usize);
        }
        self.low <= x && x <= self.high
    }

    // How many positions it has.
    pub fn size(&self, plan: &plan::Plan) -> u32
        requires { OfPlan (as_plan plan.now) (members (as_plan plan.now) self.now) × Flat (as_plan plan.now) self.now }
        ensures { result ≡ size_of (as_plan plan.now) (members (as_plan plan.now) self.now) }
    {
        if plan.kind == 1 {
            return marks::count(&self.ports, plan.count as usize) as u32;
        }
        self.high - self.low + 1
    }

    // The centre; and each position of a tree gets its number.
    fn survey_ports(&mut self, plan: &plan::Plan) -> Centre
        requires { Lent (as_plan plan.now) × OfPlan (as_plan plan.now) (members (as_plan plan.now) self.old) × (3 ≤ size_of (as_plan plan.now) (members (as_plan plan.now) self.old)) × Flat (as_plan plan.now) self.old }
        ensures { Finds (as_plan plan.now) (members (as_plan plan.now) self.old) self.new result }
    {
        if plan.kind == 1 {
            let tree = rows_of(plan);
            let c = tree_pass_centre::centre(&tree, &self.ports);
            let d = component_tree::number(&tree, &mut self.ports, c);
            return Centre {
                centre: c as base::Position,
                degree: d as u32,
            };
        }
        Centre {
            centre: midpoint(self.low, self.high),
            degree: 2,
        }
    }

    // The port of x.
    fn port(&self, plan: &plan::Plan, x: base::Position) -> u8
        requires { Surveyed (as_plan plan.now) self.now × T (members (as_plan plan.now) self.now x) }
        ensures { result ≡ port_of (as_plan plan.now) (members (as_plan plan.now) self.now) x }
    {
        if plan.kind == 1 {
            return self.ports[x as usize] - 1;
        }
        range_port(midpoint(self.low, self.high), x)
    }

    // The survey of a component of three or more positions with the board at x, one of them: its positions are numbered then.
    pub fn survey_at(&mut self, plan: &plan::Plan, x: base::Position) -> Survey
        requires { Enterable (as_plan plan.now) self.old x × (3 ≤ size_of (as_plan plan.now) (members (as_plan plan.now) self.old)) }
        ensures { Surveys (as_plan plan.now) (members (as_plan plan.now) self.old) x self.new result }
    {
        let c = self.survey_ports(plan);
        Survey {
            centre: c.centre,
            degree: c.degree,
            port: self.port(plan, x),
        }
    }

    // Neighbour k of the centre.
    pub fn neighbour(&self, plan: &plan::Plan, centre: base::Position, k: u8) -> base::Position
        requires { Lent (as_plan plan.now) × HasSide (as_plan plan.now) self.now centre k }
        ensures { result ≡ neighbour_of (as_plan plan.now) (members (as_plan plan.now) self.now) k }
    {
        if plan.kind == 1 {
            let tree = rows_of(plan);
            let c = centre as usize;
            return component_tree::neighbour(
                &tree,
                &self.ports,
                c,
                usize::from(k),
            ) as base::Position;
        }
        if k == 1 {
            return centre - 1;
        }
        centre + 1
    }

    // Its side k.
    pub fn enter_side(&mut self, plan: &plan::Plan, centre: base::Position, k: u8)
        requires { HasSide (as_plan plan.now) self.old centre k }
        ensures { Holds (as_plan plan.now) self.new (side_of (as_plan plan.now) (members (as_plan plan.now) self.old) k) }
    {
        if plan.kind == 1 {
            marks::only(&mut self.ports, k + 1);
        } else if k == 1 {
            self.high = centre - 1;
        } else {
            self.low = centre + 1;
        }
    }
}
