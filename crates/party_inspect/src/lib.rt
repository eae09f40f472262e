// Question 19: is a record one of a party? One pass over the plan part, one over the sets of senders, and a few over the plan's positions for each entered level (on a range: none).
#![tactic(auto)]

ghost use Rattle.std.specs.Prelude.{◌≡◌, ◌≤◌, T, length, is_some, IfSome};
ghost use Rattle.plan.specs.Tie.{as_plan};
ghost use Rattle.plan.specs.Valid.{plan_valid};
ghost use Rattle.component.specs.Component.{size_of, degree_of};
ghost use Rattle.component.specs.Inner.{members, Holds, HasSide};
ghost use Rattle.level.specs.Level.{value_count};
ghost use Rattle.party.specs.Valid.{party_valid};
ghost use Rattle.party.specs.Tie.{as_party};
ghost use Rattle.party.specs.Inner.{Charts, Filled, Sends};
ghost use Rattle.party_fields.specs.Inner.{values_fit};
ghost use Rattle.party_inspect.specs.Inner.{part_fits, part_of, entered_fits, Over, Ready, Settles};

// Do the results of level i pass, over a component of three or more positions that holds its position? It sends.
fn inspect_sending(plan: &plan::Plan, chart: &mut party::Chart, l: level::Level, i: usize) -> bool
    requires { Over (as_plan plan.now) chart.old.deepest i × (3 ≤ size_of (as_plan plan.now) (members (as_plan plan.now) chart.old.deepest)) × T (members (as_plan plan.now) chart.old.deepest l.position) }
    ensures passes { result ≡ values_fit (degree_of (as_plan plan.now) (members (as_plan plan.now) chart.old.deepest)) l }
    ensures sends { Sends (as_plan plan.now) (members (as_plan plan.now) chart.old.deepest) l.position i chart.old chart.new }
{
    let s = chart.deepest.survey_at(plan, l.position);
    chart.surveys[i] = s;
    chart.sending = i + 1;
    party_fields::values_pass(s.degree, l)
}

// Do the position and the results of level i pass over its component?
fn inspect_part(plan: &plan::Plan, chart: &mut party::Chart, l: level::Level, i: usize) -> bool
    requires { Over (as_plan plan.now) chart.old.deepest i }
    ensures { Settles (as_plan plan.now) (part_fits (as_plan plan.now) (members (as_plan plan.now) chart.old.deepest) l) (members (as_plan plan.now) chart.old.deepest) l.position i chart.old result chart.new }
{
    if !chart.deepest.contains(plan, l.position) {
        return false;
    }
    if chart.deepest.size(plan) < 3 {
        return party_fields::unresolved(l);
    }
    inspect_sending(plan, chart, l, i)
}

// The component that level i is entered over: the whole plan, or side k of the level before, which has this centre and in whose place it is put.
fn enter(
    plan: &plan::Plan,
    part: &mut component::Component,
    i: usize,
    k: u8,
    centre: base::Position,
)
    requires { T (plan_valid (as_plan plan.now)) × ((i ≡ 0 → ⊥) → HasSide (as_plan plan.now) part.old centre k) }
    ensures { Holds (as_plan plan.now) part.new (part_of (as_plan plan.now) part.old i k) }
{
    if i == 0 {
        part.enter_whole(plan);
        return;
    }
    part.enter_side(plan, centre, k);
}

// Does level i pass, which is entered?
fn inspect_entered(plan: &plan::Plan, chart: &mut party::Chart, l: level::Level, i: usize) -> bool
    requires { Ready (as_plan plan.now) chart.old i }
    ensures settles { Settles (as_plan plan.now) (entered_fits (as_plan plan.now) chart.old i l) (part_of (as_plan plan.now) chart.old.deepest i l.side) l.position i chart.old result chart.new }
    ensures sized { length l.echoed ≡ value_count }
{
    // the level before; level 0 asks nothing of one
    let s = chart.surveys[i.saturating_sub(1)];
    if !party_fields::entry_passes(chart.sending, s.degree, i, l.side) {
        return false;
    }
    enter(plan, &mut chart.deepest, i, l.side, s.centre);
    inspect_part(plan, chart, l, i)
}

// Does the record pass question 19? If so, its chart.
pub fn inspect(p: &party::Party) -> Option<party::Chart>
    ensures passes { is_some result ≡ party_valid (as_party p.now) }
    ensures charted { IfSome result (Charts (as_party p.now)) }
    ensures sized { IfSome result (λ _. Filled (as_party p.now)) }
{
    if settings::check(p.n, p.t, p.own).is_err() {
        return None;
    }
    if !plan_test::valid(&p.plan) {
        return None;
    }
    if !senders::only_below(party_fields::union_of(&p.sets), p.n) {
        return None;
    }
    let mut chart = party::Chart::empty();
    for i in 0..base::LEVELS {
        let l = p.levels[i];
        if !party_fields::output_passes(p.plan.count, l.output) {
            return None;
        }
        if !l.entered {
            if !party_fields::unresolved(l) {
                return None;
            }
            continue;
        }
        if !inspect_entered(&p.plan, &mut chart, l, i) {
            return None;
        }
    }
    Some(chart)
}
