// Where a level keeps the sets of senders of its messages, and the searches through them that several rules share.
#![tactic(auto)]

ghost use Rattle.std.specs.Prelude.{◌≡◌, ◌+◌, ◌-◌, ◌*◌, ◌≤◌, ◌<◌};
ghost use Rattle.base.specs.Limits.{max_degree, max_boards};
ghost use Rattle.base.specs.Sets.{count};
ghost use Rattle.level_counts.specs.Places.{second_proposals, slot_count};
ghost use Rattle.level_counts.specs.Inner.{places_of};
ghost use Rattle.level_counts.specs.Choice.{reached, first_value, first_candidate};

// None, as a value of a level; the values before it are 0 to base::MAX_DEGREE.
pub const NONE: u8 = base::NONE;
// A value that is not there yet.
pub const NOT_YET: u8 = NONE + 1;
// The place of none among the values of an echo, and how many these are.
pub const NONE_PLACE: usize = NONE as usize;

pub const VALUES: usize = NONE_PLACE + 1;
// The places of a value's binary digits: 0 to 3.
pub const BIT_PLACES: u32 = 4;

// Where the sets of each kind of message begin, first echoes at 0: that of value v is v places on.
pub const FIRST_PROPOSALS: usize = VALUES;
// None is never a first proposal.
pub const SECOND_ECHOES: usize = FIRST_PROPOSALS + NONE_PLACE;

pub const SECOND_PROPOSALS: usize = SECOND_ECHOES + VALUES;
// Sides begin with 1.
pub const SIDES: usize = SECOND_PROPOSALS + NONE_PLACE;

pub const CENTRES: usize = SIDES + NONE_PLACE;
// How many messages differ at a level: one set of senders for each.
pub const SLOTS: usize = CENTRES + 1;

// What was heard at a level: the senders of each message, by its slot.
pub type Heard = [senders::Mask; SLOTS];

// These constants.
#[derive(Clone, Copy)]
pub struct Places {
    pub none_value: u8,
    pub not_yet: u8,
    pub values: usize,
    pub bit_places: u32,
    pub first_proposals: usize,
    pub second_echoes: usize,
    pub second_proposals: usize,
    pub sides: usize,
    pub centres: usize,
    pub slots: usize,
}

// Each constant is the number that the definitions name.
pub fn constants() -> Places
    ensures { result ≡ places_of }
{
    Places {
        none_value: NONE,
        not_yet: NOT_YET,
        values: VALUES,
        bit_places: BIT_PLACES,
        first_proposals: FIRST_PROPOSALS,
        second_echoes: SECOND_ECHOES,
        second_proposals: SECOND_PROPOSALS,
        sides: SIDES,
        centres: CENTRES,
        slots: SLOTS,
    }
}

// The place of a message's set of senders.
#[tactic(auto, unfolding(crate::specs::Places::slot))]
pub fn slot(b: message::Body) -> usize
    ensures { result ≡ Rattle.level_counts.specs.Places.slot b }
{
    match b {
        message::Body::FirstEcho(v) => usize::from(v),
        message::Body::FirstProposal(v) => FIRST_PROPOSALS + usize::from(v),
        message::Body::SecondEcho(v) => SECOND_ECHOES + usize::from(v),
        message::Body::SecondProposal(v) => SECOND_PROPOSALS + usize::from(v),
        message::Body::Side(v) => SIDES + usize::from(v),
        message::Body::Centre => CENTRES,
    }
}

// What the rules at a level count by: n boards, at most t of them faulty, and d, the number of the centre's neighbours.
#[derive(Clone, Copy)]
pub struct Counting {
    pub n: u32,
    pub t: u32,
    pub degree: u8,
    ghost in_limits: { (degree ≤ max_degree) × (t < n) × (n ≤ max_boards) },
}

impl Counting {
    // t+1: one of them is a sound board.
    pub fn weak(self) -> u32
        ensures { result ≡ self.t + 1 }
    {
        self.t + 1
    }

    // 2t+1: t+1 of them are sound boards.
    pub fn strong(self) -> u32
        ensures { result ≡ 2 * self.t + 1 }
    {
        2 * self.t + 1
    }

    // n-t: the sound boards alone are so many.
    pub fn quorum(self) -> u32
        ensures { result ≡ self.n - self.t }
    {
        self.n - self.t
    }

    // The smallest of the values 0 to d that has k senders, the sets of these values being those from `from` on. (`find` was tried and did not prove.)
    pub fn first_value(self, heard: &Heard, from: usize, k: u32) -> Option<u8>
        requires { from + self.degree < slot_count }
        ensures { result ≡ first_value self.degree (reached heard.now from k) }
    {
        for v in 0..=self.degree {
            if senders::reaches(heard[from + usize::from(v)], k) {
                return Some(v);
            }
        }
        None
    }

    // How many of the values 0 to d have k senders.
    pub fn count_values(self, heard: &Heard, from: usize, k: u32) -> usize
        requires { from + self.degree < slot_count }
        ensures { result ≡ count (self.degree + 1) (reached heard.now from k) }
    {
        let degree = usize::from(self.degree);
        let sets = &heard[from..=from + degree];
        sets.iter().filter(|m| senders::reaches(**m, k)).count()
    }

    // The first candidate that has k senders, in the order "smallest, none last".
    pub fn first_candidate(self, heard: &Heard, from: usize, k: u32) -> Option<u8>
        requires { from ≤ second_proposals }
        ensures { result ≡ first_candidate self.degree (reached heard.now from k) }
    {
        if let Some(v) = self.first_value(heard, from, k) {
            return Some(v);
        }
        senders::reaches(heard[from + NONE_PLACE], k).then_some(NONE)
    }
}
