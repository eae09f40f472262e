// The library's record as a sheet of numbers, and back.
#![tactic(auto)]

use level::Level;
use party::Party;
use plan::Plan;
use second_sheet::sheet;
use second_sheet::sheet::{PlanRow, Sheet};
use second_wire::wire::Kind;

// One end of each row of a plan.
type Ends = [u16; base::MAX_ROWS];

// The column of the senders of a value in messages of a kind.
fn column_of(kind: Kind, value: usize) -> usize {
    let place = kind.number().saturating_mul(sheet::VALUES);
    sheet::SETS.saturating_add(place).saturating_add(value)
}

// The column of the set of senders in a slot: first echoes, first proposals, second echoes, second
// proposals, sides from 1 on, centre.
fn column(slot: usize) -> usize {
    match slot {
        0..=16 => column_of(Kind::FirstEcho, slot),
        17..=32 => column_of(Kind::FirstProposal, slot - 17),
        33..=49 => column_of(Kind::SecondEcho, slot - 33),
        50..=66 => column_of(Kind::SecondProposal, slot - 50),
        67..=81 => column_of(Kind::Side, slot - 66),
        _ => column_of(Kind::Centre, 0),
    }
}

// ---- from a record to a sheet

// The sets of senders of all levels, slot by slot.
fn lay_sets(x: &mut Sheet, p: &Party) {
    for (i, set) in p.sets.iter().enumerate() {
        let level = i / level_counts::SLOTS;
        let slot = i % level_counts::SLOTS;
        x.set(level, column(slot), usize::from(*set));
    }
}

// Which values were second-echoed at a level.
fn lay_echoes(x: &mut Sheet, l: &Level, k: usize) {
    for (w, echoed) in l.echoed.iter().enumerate() {
        x.set(k, sheet::ECHOED.saturating_add(w), usize::from(*echoed));
    }
}

// The entry, the results and the output of level k.
fn lay_results(x: &mut Sheet, l: &Level, k: usize) {
    x.set(k, sheet::ENTERED, usize::from(l.entered));
    x.set(k, sheet::SIDE, usize::from(l.side));
    x.set(k, sheet::POSITION, l.position as usize);
    x.set(k, sheet::FIRST, usize::from(l.first));
    x.set(k, sheet::RESULT, usize::from(l.result));
    x.set(k, sheet::OUTPUT, l.output as usize);
}

// What was made at level k, and the result's grade.
fn lay_made(x: &mut Sheet, l: &Level, k: usize) {
    x.set(k, sheet::ECHOED_PORT, usize::from(l.echoed_port));
    x.set(k, sheet::ECHOED_NONE, usize::from(l.echoed_none));
    x.set(k, sheet::PROPOSAL, usize::from(l.proposal));
    x.set(k, sheet::SECOND_PROPOSAL, usize::from(l.second_proposal));
    x.set(k, sheet::TOLD_CENTRE, usize::from(l.told_centre));
    x.set(k, sheet::SURE, usize::from(l.sure));
}

// All levels.
fn lay_levels(x: &mut Sheet, p: &Party) {
    for (k, l) in p.levels.iter().enumerate() {
        lay_echoes(x, l, k);
        lay_results(x, l, k);
        lay_made(x, l, k);
    }
}

// The settings.
fn lay_settings(x: &mut Sheet, p: &Party) {
    x.set(sheet::VOTE, sheet::BOARDS, p.n as usize);
    x.set(sheet::VOTE, sheet::FAULTS, p.t as usize);
    x.set(sheet::VOTE, sheet::OWN, p.own as usize);
    x.set(sheet::VOTE, sheet::NUMBER, p.agreement as usize);
}

// The plan part.
fn lay_plan(x: &mut Sheet, plan: &Plan) {
    x.set(sheet::VOTE, sheet::KIND, plan.kind as usize);
    x.set(sheet::VOTE, sheet::COUNT, plan.count as usize);
    x.set(sheet::VOTE, sheet::LOW, plan.low as usize);
    for (i, (parent, child)) in plan.parent.iter().zip(&plan.child).enumerate() {
        let row = PlanRow {
            from: usize::from(*parent),
            to: usize::from(*child),
        };
        x.set_plan_row(i, row);
    }
}

// The sheet of a record.
pub fn sheet_of(p: &Party) -> Sheet {
    let mut x = Sheet::new();
    lay_settings(&mut x, p);
    lay_plan(&mut x, &p.plan);
    lay_sets(&mut x, p);
    lay_levels(&mut x, p);
    x
}

// ---- from a sheet to a record: without what does not fit

// A byte of level k.
fn byte(x: &Sheet, k: usize, column: usize) -> u8 {
    (x.at(k, column) % 256) as u8
}

// A flag of level k.
fn flag(x: &Sheet, k: usize, column: usize) -> bool {
    x.at(k, column) != 0
}

// A number as a u16.
fn half(number: usize) -> u16 {
    (number % 65536) as u16
}

// The sets of all levels.
fn put_sets(p: &mut Party, x: &Sheet) {
    for (i, set) in p.sets.iter_mut().enumerate() {
        let level = i / level_counts::SLOTS;
        let slot = i % level_counts::SLOTS;
        *set = half(x.at(level, column(slot)));
    }
}

// The second echoes of level k.
fn echoes_of(x: &Sheet, k: usize) -> [bool; level_counts::VALUES] {
    let mut echoes = [false; level_counts::VALUES];
    for (w, echoed) in echoes.iter_mut().enumerate() {
        *echoed = flag(x, k, sheet::ECHOED.saturating_add(w));
    }
    echoes
}

// Level k.
fn level_of(x: &Sheet, k: usize) -> Level {
    Level {
        entered: flag(x, k, sheet::ENTERED),
        side: byte(x, k, sheet::SIDE),
        position: x.word(k, sheet::POSITION),
        echoed_port: flag(x, k, sheet::ECHOED_PORT),
        echoed_none: flag(x, k, sheet::ECHOED_NONE),
        proposal: byte(x, k, sheet::PROPOSAL),
        first: byte(x, k, sheet::FIRST),
        echoed: echoes_of(x, k),
        second_proposal: byte(x, k, sheet::SECOND_PROPOSAL),
        result: byte(x, k, sheet::RESULT),
        sure: flag(x, k, sheet::SURE),
        told_centre: flag(x, k, sheet::TOLD_CENTRE),
        output: x.word(k, sheet::OUTPUT),
    }
}

// The vertices that the plan's rows lead from, and those that they lead to.
fn ends_of(x: &Sheet) -> (Ends, Ends) {
    let mut parents = [0; base::MAX_ROWS];
    let mut children = [0; base::MAX_ROWS];
    let ends = parents.iter_mut().zip(children.iter_mut());
    for (row, (parent, child)) in x.plan().iter().zip(ends) {
        *parent = half(row.from);
        *child = half(row.to);
    }
    (parents, children)
}

// The plan part.
fn plan_of(x: &Sheet) -> Plan {
    let (parent, child) = ends_of(x);
    Plan {
        kind: x.word(sheet::VOTE, sheet::KIND),
        count: x.word(sheet::VOTE, sheet::COUNT),
        low: x.word(sheet::VOTE, sheet::LOW),
        parent,
        child,
    }
}

// The record before its levels.
fn before_levels(x: &Sheet) -> Party {
    let n = x.word(sheet::VOTE, sheet::BOARDS);
    let t = x.word(sheet::VOTE, sheet::FAULTS);
    let own = x.word(sheet::VOTE, sheet::OWN);
    let number = x.word(sheet::VOTE, sheet::NUMBER);
    Party::new(n, t, own, number, plan_of(x))
}

// The record of a sheet.
pub fn party_of(x: &Sheet) -> Party {
    let mut p = before_levels(x);
    put_sets(&mut p, x);
    for (k, level) in p.levels.iter_mut().enumerate() {
        *level = level_of(x, k);
    }
    p
}
