// One rule's step: a level entered, and the next level after a rule.
#![tactic(auto)]

ghost use Rattle.std.specs.Prelude.{◌≡◌, ◌<◌};
ghost use Rattle.base.specs.Limits.{level_count};
ghost use Rattle.plan.specs.Tie.{as_plan};
ghost use Rattle.level.specs.Tie.{as_effect};
ghost use Rattle.component.specs.Component.{side_of};
ghost use Rattle.component.specs.Inner.{Lent, Enterable, HasSide, members};
ghost use Rattle.party_step.specs.Inner.{seen, way_of, place, Enters, Descends, Steps, Stepped};

// How a rule enters the next level: by which side, and whether at the old position.
#[derive(Clone, Copy)]
pub struct Way {
    pub side: u8,
    pub keep: bool,
}

// What the rules at a level see: the settings, its survey, and the level after it.
pub fn context(n: u32, t: u32, s: component::Survey, next: level::Level) -> level::Context
    ensures { result ≡ seen n t s next.entered next.output }
{
    level::Context {
        n,
        t,
        degree: s.degree,
        port: s.port,
        centre: s.centre,
        next_entered: next.entered,
        next_output: next.output,
    }
}

// Level i is entered over the component that is kept, by side k at x. Where it sends, the chart has its survey.
pub fn enter(
    plan: &plan::Plan,
    chart: &mut party::Chart,
    i: usize,
    level: level::Level,
    k: u8,
    x: base::Position,
) -> level::Level
    requires { Enterable (as_plan plan.now) chart.old.deepest x × (i < level_count) }
    ensures { Enters (as_plan plan.now) (members (as_plan plan.now) chart.old.deepest) level k x i chart.old result chart.new }
{
    let mut l = level;
    l.entered = true;
    l.side = k;
    l.position = x;
    if chart.deepest.size(plan) < 3 {
        l.output = x;
        return l;
    }
    let s = chart.deepest.survey_at(plan, x);
    chart.surveys[i] = s;
    chart.sending = i + 1;
    l
}

// Where a side of a component is entered: at the old position where the way keeps it, else at the side's neighbour of the centre.
fn gate(
    plan: &plan::Plan,
    part: &component::Component,
    centre: base::Position,
    w: Way,
    position: base::Position,
) -> base::Position
    requires { Lent (as_plan plan.now) × HasSide (as_plan plan.now) part.now centre w.side }
    ensures { result ≡ place (as_plan plan.now) (members (as_plan plan.now) part.now) w.side w.keep position }
{
    if w.keep {
        return position;
    }
    part.neighbour(plan, centre, w.side)
}

// Level i is entered so from the level before it, which has this centre and position.
fn descend(
    plan: &plan::Plan,
    chart: &mut party::Chart,
    centre: base::Position,
    position: base::Position,
    i: usize,
    next: level::Level,
    w: Way,
) -> level::Level
    requires { Descends (as_plan plan.now) chart.old.deepest centre position w × (i < level_count) }
    ensures { Enters (as_plan plan.now) (side_of (as_plan plan.now) (members (as_plan plan.now) chart.old.deepest) w.side) next w.side (place (as_plan plan.now) (members (as_plan plan.now) chart.old.deepest) w.side w.keep position) i chart.old result chart.new }
{
    let x = gate(plan, &chart.deepest, centre, w, position);
    chart.deepest.enter_side(plan, centre, w.side);
    enter(plan, chart, i, next, w.side, x)
}

// What a rule with this effect enters.
fn way_of(e: level::Effect) -> Option<Way>
    ensures { result ≡ way_of (as_effect e) }
{
    match e {
        level::Effect::Quiet => None,
        level::Effect::Send(_) => None,
        level::Effect::Enter { side, keep } => Some(Way { side, keep }),
        level::Effect::SendEnter { side } => Some(Way { side, keep: false }),
    }
}

// Level i after a rule with this effect at the level before it, which has this centre and position: entered where the rule does so.
pub fn step(
    plan: &plan::Plan,
    chart: &mut party::Chart,
    centre: base::Position,
    position: base::Position,
    i: usize,
    next: level::Level,
    e: level::Effect,
) -> level::Level
    requires { Steps (as_plan plan.now) chart.old.deepest centre position (way_of (as_effect e)) × (i < level_count) }
    ensures { Stepped (as_plan plan.now) chart.old position next i (way_of (as_effect e)) result chart.new }
{
    match way_of(e) {
        None => next,
        Some(w) => descend(plan, chart, centre, position, i, next, w),
    }
}
