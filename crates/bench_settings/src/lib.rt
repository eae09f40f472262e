// The settings of a vote, and readings of the script as numbers.
#![tactic(auto)]

ghost use Rattle.std.specs.Prelude.{◌≡◌};
ghost use Rattle.range_plan.specs.Range.{integer};

use party::Party;
use range_plan::{Fields, PLAN_SIZE};
use script_numbers::Reading;

// What the settings lines said.
#[derive(Clone, Copy, Debug, PartialEq, Eq, Default)]
pub struct Settings {
    // 0 until there is a `boards` line: so they are printed, and no board is set up with them
    pub n: u32,
    pub t: u32,
    agreement: Option<u32>,
    range: Option<Fields>,
}

// Does the set-up of one board on this range pass?
fn range_passes(range: Fields) -> bool {
    let mut plan = [0u8; PLAN_SIZE];
    let end = range_plan::write_plan(&mut plan, range.low, range.width);
    board::set_up(1, 0, 0, 0, &plan[..end]).is_ok()
}

// A reading as a start takes it.
pub fn value(r: Reading) -> i64
    ensures { result ≡ integer r }
{
    let m = i64::from(r.magnitude);
    if r.negative { -m } else { m }
}

impl Settings {
    // `boards n t`, if a board on a plan of one position passes.
    pub fn with_boards(self, n: u32, t: u32) -> Settings {
        if board::set_up(n, t, 0, 0, &[2, 0, 0]).is_err() {
            return self;
        }
        Settings { n, t, ..self }
    }

    // `agreement a`
    pub fn with_agreement(self, a: u32) -> Settings {
        Settings {
            agreement: Some(a),
            ..self
        }
    }

    // `range low high`, if low and width have varints and one board on the range passes.
    pub fn with_range(self, low: Reading, high: Reading) -> Settings {
        match range_plan::fields_of(low, high) {
            Some(range) if range_passes(range) => Settings {
                range: Some(range),
                ..self
            },
            _ => self,
        }
    }

    // A board; none where a setting is missing, and past the last board.
    pub fn set_up(self, own: u32) -> Option<Party> {
        let agreement = self.agreement?;
        let range = self.range?;
        let mut plan = [0u8; PLAN_SIZE];
        let end = range_plan::write_plan(&mut plan, range.low, range.width);
        board::set_up(self.n, self.t, own, agreement, &plan[..end]).ok()
    }
}
