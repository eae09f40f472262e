// What all layers share: document 01's limits, each named once; the answer of a call; and in specs/ and proofs/ choice by a test, finite sets and
// their counts, bytes written into a buffer.
#![tactic(auto)]

ghost use Rattle.std.specs.Prelude.{◌≡◌};
ghost use Rattle.base.specs.Tie.{limits};

use std::error::Error;
use std::fmt;

// Agreement numbers, and all numbers of messages and records, are at most so large.
pub const MAX_NUMBER: u32 = 4294967295;

// Boards of a vote: at most so many, numbered from 0.
pub const MAX_BOARDS: u32 = 16;

pub const MAX_SENDER: u32 = MAX_BOARDS - 1;

// Trees: the most vertices, the rows kept of such a tree, the most edges at a vertex.
pub const MAX_VERTICES: usize = 255;

pub const MAX_ROWS: usize = MAX_VERTICES - 1;

pub const MAX_DEGREE: u8 = 15;

// None as a value: one more than the largest side.
pub const NONE: u8 = MAX_DEGREE + 1;

// Ranges: the largest width; where reading 0 stands in offset binary, and the largest reading there.
pub const MAX_WIDTH: u32 = 65535;

pub const OFFSET_ZERO: u32 = 2147483648;

pub const MAX_READING: u32 = OFFSET_ZERO + (OFFSET_ZERO - 1);

// A position of a plan, and the largest: that of the widest range.
pub type Position = u32;

pub const MAX_POSITION: Position = MAX_WIDTH;

// Levels: how many send messages, the highest of them, and how many can be entered, which is one more.
pub const SENDING_LEVELS: u32 = 15;

pub const LAST_LEVEL: u32 = SENDING_LEVELS - 1;

pub const LEVELS: usize = SENDING_LEVELS as usize + 1;

// The bytes of a message at most.
pub const MESSAGE_SIZE: usize = 8;

// The limits as the code has them. Those of a level, and of a party's life, stand with the level's record (crates level and level_limits).
#[derive(Clone, Copy)]
pub struct Limits {
    pub number: u32,
    pub boards: u32,
    pub sender: u32,
    pub vertices: usize,
    pub rows: usize,
    pub degree: u8,
    pub none: u8,
    pub width: u32,
    pub offset_zero: u32,
    pub reading: u32,
    pub position: Position,
    pub sending_levels: u32,
    pub last_level: u32,
    pub levels: usize,
    pub message_size: usize,
}

// They are those of the definitions.
pub fn all_limits() -> Limits
    ensures { result ≡ limits }
{
    Limits {
        number: MAX_NUMBER,
        boards: MAX_BOARDS,
        sender: MAX_SENDER,
        vertices: MAX_VERTICES,
        rows: MAX_ROWS,
        degree: MAX_DEGREE,
        none: NONE,
        width: MAX_WIDTH,
        offset_zero: OFFSET_ZERO,
        reading: MAX_READING,
        position: MAX_POSITION,
        sending_levels: SENDING_LEVELS,
        last_level: LAST_LEVEL,
        levels: LEVELS,
        message_size: MESSAGE_SIZE,
    }
}

// The questions at the door, each with the number of its refusal (README, "Refusals").
#[derive(Clone, Copy, Debug, PartialEq, Eq)]
pub enum Question {
    // settings
    Boards = 1,
    FaultyBoards = 2,
    OwnNumber = 3,
    // a plan
    PlanVarint = 4,
    PlanKind = 5,
    VertexCount = 6,
    EdgeEnds = 7,
    Acyclic = 8,
    Degree = 9,
    RangeLimits = 10,
    PlanEnd = 11,
    // a call on a party
    OnPlan = 12,
    NotStarted = 13,
    Sender = 14,
    MessageCut = 15,
    Agreement = 16,
    JournalRoom = 17,
    OutgoingRoom = 18,
    PartyRecord = 19,
    UsedLength = 20,
    JournalRecord = 21,
    MessageVarint = 22,
    MessageTable = 23,
    MessageEnd = 24,
    StepSize = 25,
    TwoAgreements = 27,
}

impl Question {
    ghost use Rattle.base.specs.Question.{number_of};

    // The number of its refusal.
    pub fn number(self) -> u8
        ensures { result ≡ number_of self }
    {
        self as u8
    }
}

// A refusal: the first question that is answered by no, and the place.
#[derive(Clone, Copy, Debug, PartialEq, Eq)]
pub struct Refusal {
    pub question: Question,
    pub place: usize,
}

// Whether a call was accepted.
pub type Verdict = Result<(), Refusal>;

impl fmt::Display for Refusal {
    fn fmt<W: fmt::Write>(&self, f: &mut fmt::Formatter<W>) -> fmt::Result {
        write!(
            f,
            "refused by {} at place {}",
            self.question.number(),
            self.place
        )
    }
}

impl Error for Refusal {}

// A question that has no place of its own refuses at place 0.
impl From<Question> for Refusal {
    ghost use Rattle.base.specs.Question.{RefusesAtZero};

    ghost from_gives = { RefusesAtZero };

    fn from(question: Question) -> Refusal {
        Refusal { question, place: 0 }
    }
}
