// A vote.
use crate::call::{Call, Request, Settings, Terms};
use crate::plan::{Plan, Spelled};
use crate::pool::Pool;
use crate::random::Random;
use crate::seats::{BOARDS, Seat, Seats};
use crate::span::Span;
use crate::totals;
use random_calls::word;
use second_wire::group;

// What a vote is doing: set-ups; random steps; last deliveries, until every board has taken every message; readings.
#[derive(Clone, Copy, PartialEq, Eq)]
pub enum Phase {
    SettingUp,
    Playing,
    Delivering,
    Reading,
    Done,
}

#[derive(Clone, Copy, PartialEq, Eq, Default)]
pub enum Stage {
    #[default]
    NotSetUp,
    Up,
    // down after a cut
    Down,
}

// A start that was not lost: the input's position, and where its record ends.
#[derive(Clone, Copy)]
pub struct Started {
    pub position: usize,
    pub end: usize,
}

// What is known of a seat.
#[derive(Clone, Copy, Default)]
pub struct SeatState {
    pub is_sound: bool,
    pub stage: Stage,
    pub used: usize,
    // How many journal bytes a cut must leave, and how many the last one left.
    pub guarded: usize,
    pub left: usize,
    pub started: Option<Started>,
    // The position of the answer held, and of the answer read.
    pub held: Option<usize>,
    pub read: Option<usize>,
    // The count answer that was read.
    pub count_read: Option<i64>,
}

impl SeatState {
    pub fn is_up(&self) -> bool {
        self.stage == Stage::Up
    }
}

// Where something was first.
#[derive(Clone, Copy)]
pub struct Noted {
    pub vote: usize,
    pub call: usize,
}

// One more of what must not come; where it was first is kept.
pub fn note(total: &mut usize, first: &mut Option<Noted>, here: Noted) {
    totals::count(total);
    *first = first.or(Some(here));
}

// Where the first wrong count, the first difference and the first faulty answer were.
#[derive(Clone, Copy, Default)]
pub struct Firsts {
    pub miscount: Option<Noted>,
    pub difference: Option<Noted>,
    pub fault: Option<Noted>,
}

// The positions of inputs: one near which the others lie, and how far apart.
#[derive(Clone, Copy, Default)]
pub struct Inputs {
    pub near: usize,
    pub apart: usize,
}

// Which messages come slowly: by sender and board; by kind and board, those of none eight rows on.
#[derive(Clone, Copy, Default)]
pub struct Slow {
    pub links: [[bool; BOARDS]; 16],
    pub kinds: [[bool; BOARDS]; 16],
}

// What a faulty board said last in messages of a level and kind, and the board that it said it to.
#[derive(Clone, Copy, PartialEq, Eq)]
pub struct Telling {
    pub board: usize,
    pub value: usize,
}

// The order in which a board takes the messages of a round: its next one, and how it goes on.
#[derive(Clone, Copy, Default)]
pub struct Order {
    pub cursor: usize,
    pub stride: usize,
}

// A round of the last deliveries: its first message, and where it ends; whether a cut or a restore came in it, and whether a slow message was left out in the
// last rounds.
#[derive(Clone, Copy, Default)]
pub struct Round {
    pub first: usize,
    pub end: usize,
    pub is_cut: bool,
    pub leaves_out: bool,
    pub orders: [Order; BOARDS],
}

// How many levels, kinds and senders there are, for what faulty boards said.
const TELLINGS: usize = 16 * 8 * 16;

// Level, kind and sender as one number.
pub fn key(level: usize, kind: usize, sender: usize) -> usize {
    (level % 16 * 8 + kind % 8) * 16 + sender % 16
}

#[derive(Drop)]
pub struct Vote {
    pub random: Random,
    // How many votes were drawn before it, how many calls were made, and what was first in them.
    pub number: usize,
    pub calls: usize,
    pub firsts: Firsts,
    pub boards: usize,
    pub faults: usize,
    pub agreement: usize,
    // The vote's plan, and the bytes of one that may be damaged.
    pub plan: Plan,
    pub damaged: Spelled,
    pub inputs: Inputs,
    pub phase: Phase,
    pub turn: usize,
    // How many random steps there are; of 128 how many take what a faulty board says.
    pub steps: usize,
    pub lies: usize,
    // Whether faulty boards say anything, or mostly the same to a board at a level; from which number that follows.
    pub is_wild: bool,
    pub salt: usize,
    // Whether the bench takes messages from all boards in most steps.
    pub is_flooded: bool,
    pub slow: Slow,
    // Whether the vote's boards are divided: most are off, that is led to result none, the others to a side.
    pub is_divided: bool,
    pub off: [bool; BOARDS],
    pub seats: Seats<SeatState>,
    pub pool: Pool,
    // The highest level of a message handed over.
    pub top: usize,
    pub told: [Option<Telling>; TELLINGS],
    pub round: Round,
    // How many more cuts may come among the last deliveries, and how often slow messages are still left out.
    pub cuts_left: usize,
    pub patience: usize,
    // Whether a cut lost messages before every sound board had taken them.
    pub loses_messages: bool,
    // How many levels of the plan send.
    pub sending: usize,
    // The positions of the pair answers.
    pub pair_answers: Option<Span<usize>>,
    // The step size at which all boards start by counts, if they do; the count answers; the count of each seat's last start by count.
    pub size: Option<u32>,
    pub count_answers: Option<Span<i64>>,
    pub counts: Seats<i64>,
    // Whether the last call was a restore.
    pub was_restore: bool,
}

impl Vote {
    // What is before the first vote, with a stream of pseudo-random numbers, and the number that the first has. Its parts are put together in a frame of its own.
    #[inline(never)]
    pub fn new(random: Random, number: usize) -> Vote {
        Vote {
            random,
            number,
            calls: 0,
            firsts: Firsts::default(),
            boards: 0,
            faults: 0,
            agreement: 0,
            plan: Plan::default(),
            damaged: Spelled::default(),
            inputs: Inputs::default(),
            phase: Phase::Done,
            turn: 0,
            steps: 0,
            lies: 0,
            is_wild: false,
            salt: 0,
            is_flooded: false,
            slow: Slow::default(),
            is_divided: false,
            off: [false; BOARDS],
            seats: Seats::new(SeatState::default()),
            pool: Pool::new(),
            top: 0,
            told: [None; TELLINGS],
            round: Round::default(),
            cuts_left: 0,
            patience: 0,
            loses_messages: false,
            sending: 0,
            pair_answers: None,
            size: None,
            count_answers: None,
            counts: Seats::new(i64::MIN),
            was_restore: false,
        }
    }

    // How many bytes the varint of the agreement number has.
    pub fn number_length(&self) -> usize {
        group::size(self.agreement)
    }

    // What was kept of the vote before is forgotten, but for the counts of its starts.
    pub fn forget(&mut self) {
        self.seats.set_all(SeatState::default());
        self.pool.clear();
        self.top = 0;
        self.told = [None; TELLINGS];
        self.loses_messages = false;
        self.pair_answers = None;
        self.count_answers = None;
    }

    // Whether a board is sound.
    pub fn is_sound(&self, b: usize) -> bool {
        self.seats.board(b).is_sound
    }

    // The sound boards.
    pub fn sound(&self) -> [bool; BOARDS] {
        let mut sound = [false; BOARDS];
        for (is_sound, state) in sound.iter_mut().zip(self.seats.boards()) {
            *is_sound = state.is_sound;
        }
        sound
    }

    // The vote's own terms, for a board.
    pub fn terms(&self, own: usize) -> Terms {
        Terms {
            boards: word(self.boards),
            faults: word(self.faults),
            own: word(own),
            number: word(self.agreement),
        }
    }

    // Those terms, with the vote's plan.
    pub fn settings(&self, own: usize) -> Settings {
        Settings {
            terms: self.terms(own),
            is_damaged: false,
        }
    }

    // The bytes of the plan that settings go with.
    pub fn plan_of(&self, settings: Settings) -> &[u8] {
        if settings.is_damaged {
            self.damaged.as_slice()
        } else {
            self.plan.spelled.as_slice()
        }
    }

    // A call of a seat, with enough lent.
    pub fn call(&self, seat: Seat, request: Request) -> Call {
        Call::new(seat, self.seats.at(seat).used, request)
    }

    // Something is noted as what comes here.
    pub fn noted(&self) -> Noted {
        Noted {
            vote: self.number.saturating_add(1),
            call: self.calls,
        }
    }

    // What a faulty board said before in messages of a level and kind; now it says something else.
    pub fn tell(&mut self, key: usize, telling: Telling) -> Option<Telling> {
        self.told.get_mut(key)?.replace(telling)
    }
}
