// One level of a party: what the board did at it, and the fourteen rules over what it heard there.
#![tactic(auto)]

ghost use Rattle.std.specs.Prelude.{◌≡◌, ◌≤◌, ◌<◌, replicate};
ghost use Rattle.base.specs.Limits.{max_boards, max_degree};
ghost use Rattle.level.specs.Level.{blank_level, slot_count};
ghost use Rattle.level.specs.Tie.{as_level};

use level_counts::Counting;

mod rules;

// None, as a value of a level's fields, and a value that is not there yet.
const NONE: u8 = level_counts::NONE;

pub const NOT_YET: u8 = level_counts::NOT_YET;
// An output that is not there yet: one more than the largest position.
pub const NO_OUTPUT: base::Position = base::MAX_POSITION + 1;

// What is not there yet is NOT_YET or NO_OUTPUT and no None of an Option: question 19 is asked of every record, and two that stand for one level are
// the same (`party_one`), which a Some(NOT_YET) would break.
//
// What the board did at a level. What it heard there is lent beside it: the senders of each message, by its slot.
#[derive(Clone, Copy)]
pub struct Level {
    // has the board entered the level, by which side of the level above (0 at level 0), and at which position?
    pub entered: bool,
    pub side: u8,
    pub position: base::Position,
    // first echoes made: of the port, of none
    pub echoed_port: bool,
    pub echoed_none: bool,
    // the first proposal made, or NOT_YET
    pub proposal: u8,
    // the first result, none, or NOT_YET
    pub first: u8,
    // second echoes made, by value
    pub echoed: [bool; level_counts::VALUES],
    // the second proposal made, or NOT_YET
    pub second_proposal: u8,
    // the (second) result's value, none, or NOT_YET; a value's grade is 2 if sure, else 1
    pub result: u8,
    pub sure: bool,
    // has rule 11 been applied?
    pub told_centre: bool,
    // the output, or NO_OUTPUT
    pub output: base::Position,
}

// What the rules at a level ask of the settings, the plan and the level below.
#[derive(Clone, Copy)]
pub struct Context {
    pub n: u32,
    pub t: u32,
    // d, the number of the centre's neighbours
    pub degree: u32,
    pub port: u8,
    pub centre: base::Position,
    pub next_entered: bool,
    // as the next level's record has it: NO_OUTPUT where there is none
    pub next_output: base::Position,
}

impl Context {
    // What the rules count by.
    fn counting(self) -> Counting
        requires { (self.degree ≤ max_degree) × (self.t < self.n) × (self.n ≤ max_boards) }
        ensures boards { result.n ≡ self.n }
        ensures faults { result.t ≡ self.t }
        ensures degree { result.degree ≡ self.degree }
    {
        Counting {
            n: self.n,
            t: self.t,
            degree: self.degree as u8,
        }
    }
}

// What a rule that applies does besides changing its level's record.
#[derive(Clone, Copy)]
pub enum Effect {
    // it makes no message
    Quiet,
    // it makes this message
    Send(message::Body),
    // it enters this side of the next level, at the old position if so said, else at the side's neighbour
    Enter { side: u8, keep: bool },
    // it sends this side, and enters it at its neighbour
    SendEnter { side: u8 },
}

// What a rule that applies gives: the record after it, and what it does besides.
#[derive(Clone, Copy)]
pub struct Applied {
    pub level: Level,
    pub effect: Effect,
}

impl Level {
    // At one level, in a party's life: the most different messages that a sound board makes with at most t faulty boards; the most messages, whoever is faulty; the most rules.
    pub const MESSAGES: u32 = 7;

    pub const MESSAGES_WORST: u32 = 22;

    pub const RULES: u32 = 26;

    // A level that was not entered: the blank one where nothing was heard.
    pub fn blank() -> Level
        ensures { as_level (replicate slot_count 0) result ≡ blank_level }
    {
        Level {
            entered: false,
            side: 0,
            position: 0,
            echoed_port: false,
            echoed_none: false,
            proposal: NOT_YET,
            first: NOT_YET,
            echoed: [false; level_counts::VALUES],
            second_proposal: NOT_YET,
            result: NOT_YET,
            sure: false,
            told_centre: false,
            output: NO_OUTPUT,
        }
    }
}
