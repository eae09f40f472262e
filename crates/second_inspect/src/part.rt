// "whose settings pass 1 to 3, whose plan part a plan reading gives": the plan that the part spells
// is read, and must give this very part back.
use second::Settings;
use second_plan::plans;
use second_plan::table::{Edge, Table};
use second_plan::trees::Distances;
use second_sheet::sheet;
use second_sheet::sheet::{PlanRow, Sheet};
use second_wire::group;
use second_wire::room::Room;

// The plan that the part spells.
fn spell(sheet: &Sheet, room: &mut Room) {
    if sheet.is_range() {
        let width = sheet.of_vote(sheet::COUNT).saturating_sub(1);
        plans::spell_range(room, sheet.of_vote(sheet::LOW), width);
        return;
    }
    group::write(room, sheet.of_vote(sheet::KIND));
    group::write(room, sheet.of_vote(sheet::COUNT));
    for row in sheet.plan().iter().take(sheet.rows_used()) {
        group::write(room, row.from);
        group::write(room, row.to);
    }
}

// Questions 1 to 3 of the settings, and 4 to 11 of the plan that is spelt; the table is filled. Whether
// all pass.
pub fn read(sheet: &Sheet, table: &mut Table) -> bool {
    let mut plan = Room::new();
    spell(sheet, &mut plan);
    let settings = Settings {
        boards: sheet.word(sheet::VOTE, sheet::BOARDS),
        faults: sheet.word(sheet::VOTE, sheet::FAULTS),
        own: sheet.word(sheet::VOTE, sheet::OWN),
        number: sheet.word(sheet::VOTE, sheet::NUMBER),
    };
    second::set_up(table, &settings, plan.as_slice()).is_ok()
}

// Whether a row leads from a vertex joined with vertex 0 to one that is not: reading lays a tree's
// edges out so. The row's ends are joined.
fn leads_on(d: &mut Distances, row: PlanRow) -> bool {
    if !d.are_joined(0, row.from) || d.are_joined(0, row.to) {
        return false;
    }
    d.join(Edge {
        a: row.from,
        b: row.to,
    });
    true
}

// Whether each row of the part leads on, and each unused one holds zeros.
fn rows_come_back(sheet: &Sheet) -> bool {
    let mut d = Distances::alone();
    for (i, row) in sheet.plan().iter().enumerate() {
        let comes_back = if i < sheet.rows_used() {
            leads_on(&mut d, *row)
        } else {
            *row == PlanRow::default()
        };
        if !comes_back {
            return false;
        }
    }
    true
}

// Whether the plan that was read gives the part back: a plan has a position, a tree no low reading.
pub fn comes_back(sheet: &Sheet) -> bool {
    sheet.of_vote(sheet::COUNT) != 0
        && (sheet.is_range() || sheet.of_vote(sheet::LOW) == 0)
        && rows_come_back(sheet)
}
