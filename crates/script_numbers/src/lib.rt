// A number of a line, digit by digit.
#![tactic(auto)]

ghost use Rattle.std.specs.Prelude.{◌≡◌};
ghost use Rattle.script_numbers.specs.Inner.{no_number, appended, minus_with, digit_with, number_with, reading_of, natural_of, unsigned_of};

// A signed number: its sign and its distance from 0.
#[derive(Clone, Copy, Debug, PartialEq, Eq)]
pub struct Reading {
    pub negative: bool,
    pub magnitude: u32,
}

// A number so far.
#[derive(Clone, Copy, Debug, PartialEq, Eq)]
pub enum Number {
    // no digit yet, behind a minus or not
    Begun { negative: bool },
    // digits, behind a minus or not
    Digits(Reading),
    // no number, whatever follows
    Unreadable,
}

// The digits so far with one more, if they stay within 32 bits.
fn appended(magnitude: u32, digit: u8) -> Option<u32>
    ensures { result ≡ appended magnitude digit }
{
    magnitude.checked_mul(10)?.checked_add(u32::from(digit))
}

impl Number {
    // A number with no byte yet.
    pub fn blank() -> Number
        ensures { result ≡ no_number }
    {
        Number::Begun { negative: false }
    }

    // The number with a minus, which can only stand in front.
    fn with_minus(self) -> Number
        ensures { result ≡ minus_with self }
    {
        match self {
            Number::Begun { negative: false } => Number::Begun { negative: true },
            _ => Number::Unreadable,
        }
    }

    // The number with a digit more, if it stays within 32 bits.
    fn with_digit(self, digit: u8) -> Number
        ensures { result ≡ digit_with self digit }
    {
        let (negative, before) = match self {
            Number::Begun { negative } => (negative, 0),
            Number::Digits(r) => (r.negative, r.magnitude),
            Number::Unreadable => return Number::Unreadable,
        };
        match appended(before, digit) {
            Some(magnitude) => Number::Digits(Reading {
                negative,
                magnitude,
            }),
            None => Number::Unreadable,
        }
    }

    // The number with one byte more.
    #[tactic(auto, unfolding(crate::specs::Inner::number_with))]
    pub fn with(self, b: u8) -> Number
        ensures { result ≡ number_with self b }
    {
        match b {
            b'-' => self.with_minus(),
            b'0'..=b'9' => self.with_digit(b - b'0'),
            _ => Number::Unreadable,
        }
    }

    // What it is, if it is a number.
    pub fn reading(self) -> Option<Reading>
        ensures { result ≡ reading_of self }
    {
        match self {
            Number::Digits(r) => Some(r),
            _ => None,
        }
    }

    // What it is, if it is a number of 0 or more; -0 is one.
    pub fn natural(self) -> Option<u32>
        ensures { result ≡ natural_of self }
    {
        let r = self.reading()?;
        if r.negative && r.magnitude != 0 {
            return None;
        }
        Some(r.magnitude)
    }

    // What it is, if it is a number without a minus.
    pub fn unsigned(self) -> Option<u32>
        ensures { result ≡ unsigned_of self }
    {
        let r = self.reading()?;
        if r.negative {
            return None;
        }
        Some(r.magnitude)
    }
}
