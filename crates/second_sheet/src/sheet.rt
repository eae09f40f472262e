// A record as a sheet of numbers: a row for each level, one for the vote, and the rows of the plan.
// A flag is 0 or 1, a set of senders a mask with bit b for board b. Rows and columns are numbers, and no
// structs with named fields, so that a random change is a number at any place.
use second_plan::cells::Cells;
use second_plan::table::PlanKind;

// Levels 0 to 15 have a row each, and after them the vote.
pub const LEVELS: usize = 16;

pub const VOTE: usize = LEVELS;

pub const PLAN_ROWS: usize = 254;

// Columns of the vote's row: n, t, own number and agreement number; the plan's kind, how many
// positions it has and its low reading, kept as the reading plus 2,147,483,648.
pub const BOARDS: usize = 0;

pub const FAULTS: usize = 1;

pub const OWN: usize = 2;

pub const NUMBER: usize = 3;

pub const KIND: usize = 4;

pub const COUNT: usize = 5;

pub const LOW: usize = 6;

// Columns of a level's row: whether it is entered, by which side of the level before, and where.
pub const ENTERED: usize = 0;

pub const SIDE: usize = 1;

pub const POSITION: usize = 2;

// What was made: first echoes of the port and of none, the two proposals, and centre.
pub const ECHOED_PORT: usize = 3;

pub const ECHOED_NONE: usize = 4;

pub const PROPOSAL: usize = 5;

pub const SECOND_PROPOSAL: usize = 6;

pub const TOLD_CENTRE: usize = 7;

// The two results, whether the second has grade 2, and the output.
pub const FIRST: usize = 8;

pub const RESULT: usize = 9;

pub const SURE: usize = 10;

pub const OUTPUT: usize = 11;

// From here: whether value w was second-echoed.
pub const ECHOED: usize = 16;

// From here: the senders of value v in messages of kind k, at k * VALUES + v.
pub const SETS: usize = 33;

pub const VALUES: usize = 17;

// A proposal or result: a value 0 to 15, none, or not there yet. An output that is not there yet.
pub const NONE: usize = 16;

pub const NOT_YET: usize = 17;

pub const NO_OUTPUT: usize = 65536;

// A row of the plan: the vertex that it leads from, and the one that it leads to.
#[derive(Clone, Copy, Debug, Default, PartialEq, Eq)]
pub struct PlanRow {
    pub from: usize,
    pub to: usize,
}

impl PlanRow {
    // The row the other way round.
    pub fn turned(self) -> PlanRow {
        PlanRow {
            from: self.to,
            to: self.from,
        }
    }
}

#[derive(Clone, Copy, PartialEq, Eq)]
pub struct Sheet {
    cells: Cells,
    plan: [PlanRow; PLAN_ROWS],
}

impl Sheet {
    // A sheet of zeros.
    pub fn new() -> Sheet {
        Sheet {
            cells: Cells::new(),
            plan: [PlanRow::default(); PLAN_ROWS],
        }
    }

    // The number at a row and column, or 0.
    pub fn at(&self, row: usize, column: usize) -> usize {
        self.cells.at(row, column)
    }

    // Sets the number at a row and column.
    pub fn set(&mut self, row: usize, column: usize, value: usize) {
        self.cells.set(row, column, value);
    }

    // The number at a row and column as a u32, without what does not fit.
    pub fn word(&self, row: usize, column: usize) -> u32 {
        (self.at(row, column) % 4294967296) as u32
    }

    // The number of the vote's row at a column, or 0.
    pub fn of_vote(&self, column: usize) -> usize {
        self.at(VOTE, column)
    }

    // Whether the plan is a range.
    pub fn is_range(&self) -> bool {
        self.of_vote(KIND) == PlanKind::Range.number()
    }

    // How many rows the plan uses: one fewer than its positions, and none of a range.
    pub fn rows_used(&self) -> usize {
        if self.is_range() {
            0
        } else {
            self.of_vote(COUNT).saturating_sub(1)
        }
    }

    // The rows of the plan.
    pub fn plan(&self) -> &[PlanRow] {
        &self.plan
    }

    // Row i of the plan, or zeros.
    pub fn plan_row(&self, i: usize) -> PlanRow {
        self.plan.get(i).copied().unwrap_or_default()
    }

    // Sets row i of the plan.
    pub fn set_plan_row(&mut self, i: usize, row: PlanRow) {
        if let Some(cell) = self.plan.get_mut(i) {
            *cell = row;
        }
    }
}
