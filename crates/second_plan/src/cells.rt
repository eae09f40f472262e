// Numbers in rows and columns: a row for each level and one for the vote, and as many columns as a
// table or a sheet of a record has at most.
// No const parameters: comparing rows of COLUMNS numbers asks for less than 2^63 bytes, which none
// promises (tried, and the proof did not close).
const ROWS: usize = 17;

const COLUMNS: usize = 160;

#[derive(Clone, Copy, PartialEq, Eq)]
pub struct Cells {
    rows: [[usize; COLUMNS]; ROWS],
}

impl Cells {
    // Zeros.
    pub fn new() -> Cells {
        Cells {
            rows: [[0; COLUMNS]; ROWS],
        }
    }

    // The number at a row and column, or 0.
    pub fn at(&self, row: usize, column: usize) -> usize {
        self.rows
            .get(row)
            .and_then(|cells| cells.get(column))
            .map_or(0, |number| *number)
    }

    // Sets the number at a row and column.
    pub fn set(&mut self, row: usize, column: usize, value: usize) {
        if let Some(cells) = self.rows.get_mut(row)
            && let Some(cell) = cells.get_mut(column)
        {
            *cell = value;
        }
    }
}
