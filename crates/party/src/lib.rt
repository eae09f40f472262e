// A party: the settings, the plan and the levels of one board in one vote.
#![tactic(auto)]

ghost use Rattle.std.specs.Prelude.{◌≡◌, true, ◌+◌, ◌*◌, length};
ghost use Rattle.base.specs.Limits.{level_count};
ghost use Rattle.message.specs.Message.{in_table};
ghost use Rattle.plan.specs.Tie.{as_plan};
ghost use Rattle.level.specs.Level.{slot, slot_count};
ghost use Rattle.party.specs.Party.{new_party};
ghost use Rattle.party.specs.Tie.{vote_of, as_party};

// How many sets of senders a party has: one for each message of each level.
pub const SETS: usize = base::LEVELS * level_counts::SLOTS;

// The sets of senders of all levels, those of level 0 first: one flat array, cut by `tied`, since callers keep the record (README).
pub type Sets = [senders::Mask; SETS];

// What the board did at each level.
pub type Levels = [level::Level; base::LEVELS];

// The settings stand one by one, as the calls' parameters do (README); `vote` gives them together.
#[derive(Clone, Copy)]
pub struct Party {
    pub n: u32,
    pub t: u32,
    pub own: u32,
    pub agreement: u32,
    pub plan: plan::Plan,
    pub levels: Levels,
    pub sets: Sets,
}

// The settings of a vote.
#[derive(Clone, Copy)]
pub struct Vote {
    pub n: u32,
    pub t: u32,
    pub own: u32,
    pub agreement: u32,
}

// What the plan tells of a party's levels: kept beside the party during a call, and changed in place.
#[derive(Clone, Copy)]
pub struct Chart {
    // how many levels send: 0 to sending - 1. Beside an array and no ArrayVec: a step writes survey i at place i (`Sends`), and that it is the
    // next one only `Charts` says.
    pub sending: usize,
    // of each of these: the centre, its degree and the board's port
    pub surveys: [component::Survey; base::LEVELS],
    // the component of the last of these, while the level after it is not entered
    pub deepest: component::Component,
}

impl Chart {
    // The chart of a party that has entered no level.
    pub fn empty() -> Chart
        ensures { (result.sending ≡ 0) × (length result.surveys ≡ level_count) }
    {
        let none = component::Survey {
            centre: 0,
            degree: 0,
            port: 0,
        };
        Chart {
            sending: 0,
            surveys: [none; base::LEVELS],
            deepest: component::Component::empty(),
        }
    }
}

// The place of a message's set of senders.
pub fn place(m: message::Message) -> usize
    requires { in_table m ≡ true }
    ensures { result ≡ slot_count * m.level + slot m.body }
{
    let b = m.body;
    level_counts::SLOTS * m.level as usize + level_counts::slot(b)
}

impl Party {
    // A party that has not started.
    pub fn new(n: u32, t: u32, own: u32, agreement: u32, plan: plan::Plan) -> Party
        ensures { as_party result ≡ new_party n t own agreement (as_plan plan) }
    {
        let blank = level::Level::blank();
        Party {
            n: n,
            t: t,
            own: own,
            agreement: agreement,
            plan: plan,
            levels: [blank; base::LEVELS],
            sets: [0; SETS],
        }
    }

    // The settings.
    pub fn vote(self) -> Vote
        ensures { result ≡ vote_of self }
    {
        Vote {
            n: self.n,
            t: self.t,
            own: self.own,
            agreement: self.agreement,
        }
    }
}
