// Changes of a record: one or a few of its numbers become others that just pass or just fail.
use crate::vote::Vote;
use crate::{levels, rows};
use random_numbers::Random;
use second_plan::table::Table;
use second_sheet::sheet;
use second_sheet::sheet::Sheet;

// The kinds of changes: of a number of the vote's row, of the plan's rows, of a level.
#[derive(Clone, Copy, Debug, PartialEq, Eq)]
pub enum Change {
    Boards,
    Faults,
    Own,
    Number,
    Kind,
    Count,
    Low,
    PlanRow,
    UnusedPlanRow,
    Set,
    ManySets,
    Output,
    Entered,
    Side,
    Position,
    FirstResult,
    SecondResult,
    Made,
    Entry,
}

impl Change {
    // All of them, with their names.
    pub const ALL: [(Change, &'static str); 19] = [
        (Change::Boards, "n"),
        (Change::Faults, "t"),
        (Change::Own, "own number"),
        (Change::Number, "agreement number"),
        (Change::Kind, "plan kind"),
        (Change::Count, "positions"),
        (Change::Low, "low reading"),
        (Change::PlanRow, "plan row"),
        (Change::UnusedPlanRow, "unused plan row"),
        (Change::Set, "set of senders"),
        (Change::ManySets, "many sets of senders"),
        (Change::Output, "output"),
        (Change::Entered, "entered"),
        (Change::Side, "side"),
        (Change::Position, "position"),
        (Change::FirstResult, "first result"),
        (Change::SecondResult, "second result"),
        (Change::Made, "flags and proposals"),
        (Change::Entry, "level entered"),
    ];

    // Any change.
    fn draw(random: &mut Random) -> Change {
        Change::ALL
            .get(random.below(Change::ALL.len()))
            .map_or(Change::Entry, |(change, _)| *change)
    }

    // A further change: many sets, flags and proposals, or any.
    fn draw_further(random: &mut Random) -> Change {
        match random.below(4) {
            0 => Change::draw(random),
            1 => Change::Made,
            _ => Change::ManySets,
        }
    }
}

// A change is made.
fn apply(vote: &mut Vote, x: &mut Sheet, t: &Table, change: Change) {
    let n = x.of_vote(sheet::BOARDS);
    let number = x.of_vote(sheet::NUMBER);
    match change {
        Change::Boards => rows::change_boards(&mut vote.random, x),
        Change::Faults => {
            rows::change_vote(&mut vote.random, x, sheet::FAULTS, n.saturating_sub(1) / 3)
        }
        Change::Own => rows::change_vote(&mut vote.random, x, sheet::OWN, n),
        Change::Number => rows::change_vote(&mut vote.random, x, sheet::NUMBER, number),
        Change::Kind => rows::change_kind(&mut vote.random, x),
        Change::Count => rows::change_count(&mut vote.random, x),
        Change::Low => rows::change_low(&mut vote.random, x),
        Change::PlanRow => rows::change_row(&mut vote.random, x),
        Change::UnusedPlanRow => rows::change_unused_row(&mut vote.random, x),
        Change::Set => levels::change_set(vote, x),
        Change::ManySets => levels::change_sets(&mut vote.random, x),
        Change::Output => levels::change_output(vote, x),
        Change::Entered => levels::change_entered(vote, x),
        Change::Side => levels::change_side(vote, x, t),
        Change::Position => levels::change_position(vote, x, t),
        Change::FirstResult => levels::change_result(vote, x, t, sheet::FIRST),
        Change::SecondResult => levels::change_result(vote, x, t, sheet::RESULT),
        Change::Made => levels::change_made(vote, x),
        Change::Entry => levels::change_entry(vote, x, t),
    }
}

// One change, which is given, or a few.
pub fn make_change(vote: &mut Vote, x: &mut Sheet, t: &Table) -> Option<Change> {
    let change = Change::draw(&mut vote.random);
    apply(vote, x, t, change);
    if !vote.random.once_in(3) {
        return Some(change);
    }
    let other = Change::draw_further(&mut vote.random);
    let third = Change::draw_further(&mut vote.random);
    apply(vote, x, t, other);
    apply(vote, x, t, third);
    None
}
