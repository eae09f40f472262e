// The table's six kinds of message, and the limits of each kind's value.
#![tactic(auto)]

ghost use Rattle.std.specs.Prelude.{◌≡◌};
ghost use Rattle.message_values.specs.Values.{kind_number, HasNumber, value_low, value_high};

// The largest value of a side or a port: the most neighbours of a centre.
pub const MAX_SIDE: u32 = base::MAX_DEGREE as u32;
// The value that stands for none: the next one.
pub const NONE: u32 = base::NONE as u32;

// The table's kinds, by their numbers.
#[derive(Clone, Copy, Debug, PartialEq, Eq)]
pub enum Kind {
    FirstEcho = 1,
    FirstProposal = 2,
    SecondEcho = 3,
    SecondProposal = 4,
    Side = 5,
    Centre = 6,
}

// A number that is no kind's.
#[derive(Clone, Copy, Debug, PartialEq, Eq)]
pub struct UnknownKind;

impl Kind {
    pub const FIRST: u32 = 1;

    pub const LAST: u32 = 6;

    // Its number in the table.
    pub fn number(self) -> u32
        ensures { result ≡ kind_number self }
    {
        self as u32
    }

    // Its least value.
    pub fn low(self) -> u32
        ensures { result ≡ value_low (kind_number self) }
    {
        match self {
            Kind::Side => 1,
            _ => 0,
        }
    }

    // Its largest value.
    pub fn high(self) -> u32
        ensures { result ≡ value_high (kind_number self) }
    {
        match self {
            Kind::FirstProposal | Kind::Side => MAX_SIDE,
            _ => NONE,
        }
    }
}

impl TryFrom<u32> for Kind {
    type Error = UnknownKind;

    ghost try_from_gives = { HasNumber };

    fn try_from(number: u32) -> Result<Self, UnknownKind> {
        match number {
            1 => Ok(Kind::FirstEcho),
            2 => Ok(Kind::FirstProposal),
            3 => Ok(Kind::SecondEcho),
            4 => Ok(Kind::SecondProposal),
            5 => Ok(Kind::Side),
            6 => Ok(Kind::Centre),
            _ => Err(UnknownKind),
        }
    }
}
