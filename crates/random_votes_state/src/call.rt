// The calls of a vote, with what is lent to them.
use crate::both::JOURNAL;
use crate::message::Message;
use crate::random::Random;
use crate::seats::Seat;
// The settings of a set-up or a restore.
pub use second::Settings as Terms;

// The terms, and whether the plan is the damaged one or the vote's.
#[derive(Clone, Copy)]
pub struct Settings {
    pub terms: Terms,
    pub is_damaged: bool,
}

// A count, the step size that is given with it, and the remainder that the start should report, if the step may be one of the plan.
#[derive(Clone, Copy)]
pub struct CountStart {
    pub size: u32,
    pub count: i64,
    pub remainder: Option<i64>,
}

// An input, or in its place a count that goes to it.
#[derive(Clone, Copy)]
pub struct Start {
    pub input: i64,
    pub count: Option<CountStart>,
}

// Where a message comes from: it is one of those handed over, what a faulty board says, or anything else.
#[derive(Clone, Copy, PartialEq, Eq)]
pub enum Origin {
    Pool(usize),
    Lie,
    Other,
}

#[derive(Drop)]
pub struct Take {
    pub sender: usize,
    pub message: Message,
    pub origin: Origin,
}

#[derive(Drop)]
pub enum Request {
    SetUp(Settings),
    Start(Start),
    Take(Take),
    Read,
    Restore(Settings),
}

impl Request {
    // The request's place in the row of accepted calls.
    pub fn place(&self) -> usize {
        match self {
            Request::SetUp(_) => 1,
            Request::Start(_) => 2,
            Request::Take(_) => 3,
            Request::Read => 4,
            Request::Restore(_) => 5,
        }
    }

    pub fn is_restore(&self) -> bool {
        matches!(self, Request::Restore(_))
    }
}

// A seat's call, the journal's used length, and how long the lent journal and the lent outgoing buffer are.
#[derive(Drop)]
pub struct Call {
    pub seat: Seat,
    pub request: Request,
    pub used: usize,
    pub room: usize,
    pub out_room: usize,
}

impl Call {
    // A call with enough lent.
    pub fn new(seat: Seat, used: usize, request: Request) -> Call {
        Call {
            seat,
            request,
            used,
            room: used.saturating_add(32).min(JOURNAL),
            out_room: NEEDED,
        }
    }

    // The lent journal is so long, and no longer than what is kept of it.
    pub fn set_room(&mut self, room: usize) {
        self.room = room.min(JOURNAL);
    }

    // Now and then the outgoing buffer is too small, or larger.
    pub fn lend_out(&mut self, random: &mut Random) {
        self.out_room = out_room(random);
    }

    // Now and then the journal has little room, or too little.
    pub fn lend_journal(&mut self, random: &mut Random) {
        self.set_room(room(random, self.used));
    }
}

// What the outgoing buffer must hold.
const NEEDED: usize = 2640;

// How long an outgoing buffer is, now and then too short.
pub fn out_room(random: &mut Random) -> usize {
    match random.below(128) {
        0 => NEEDED - 1,
        1 => random.below(NEEDED),
        101.. => random.between(NEEDED, 2700),
        _ => NEEDED,
    }
}

// How long a journal is: now and then it has room for 0 to 10 more bytes, and 10 are the longest record's, or is shorter than its used length.
pub fn room(random: &mut Random, used: usize) -> usize {
    match random.below(128) {
        0..4 => used.saturating_add(random.between(0, 10)),
        4 => random.below(used.saturating_add(1)),
        _ => used.saturating_add(32),
    }
}
