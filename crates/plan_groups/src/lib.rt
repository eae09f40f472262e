// The plan's reader: the lent plan bytes and the offset reached, together; and what the first numbers of a plan say: its kind, and a range's limits.
#![tactic(auto)]

ghost use Rattle.std.specs.Prelude.{◌≡◌};
ghost use Rattle.varint.specs.Reading.{varint_at, past_of};
ghost use Rattle.plan_groups.specs.Groups.{value_read, limits_of};

use base::Question;
use varint::VarintError;

#[derive(Clone, Copy)]
pub struct PlanReader<'a> {
    pub bytes: &'a [u8],
    pub at: usize,
}

impl<'a> PlanReader<'a> {
    // A reader at the first byte.
    pub fn new(bytes: &'a [u8]) -> PlanReader<'a>
        ensures { (result.bytes ≡ bytes.entry) × (result.at ≡ 0) }
    {
        PlanReader { bytes, at: 0 }
    }

    // The varint that stands at the offset: the reader moves past it.
    pub fn next_varint(&mut self) -> Result<u32, VarintError>
        ensures value { result ≡ value_read (varint_at self.old.bytes.now self.old.at) }
        ensures moved { (self.new.bytes ≡ self.old.bytes) × (self.new.at ≡ past_of (varint_at self.old.bytes.now self.old.at) self.old.at) }
    {
        let read = varint::read(self.bytes, self.at)?;
        self.at = read.next;
        Ok(read.value)
    }
}

// The kinds of plans.
#[derive(Clone, Copy, Debug, PartialEq, Eq)]
pub enum Kind {
    Tree,
    Range,
}

// Question 5.
impl TryFrom<u32> for Kind {
    type Error = Question;

    ghost use Rattle.plan_groups.specs.Kinds.{NamesKind};

    ghost try_from_gives = { NamesKind };

    fn try_from(number: u32) -> Result<Self, Question> {
        match number {
            1 => Ok(Kind::Tree),
            2 => Ok(Kind::Range),
            _ => Err(Question::PlanKind),
        }
    }
}

// Question 10 of a range's low reading, as it is written, and its width: the low reading in offset binary.
pub fn low_within(low: u32, width: u32) -> Result<u32, Question>
    ensures { result ≡ limits_of low width }
{
    let reading = signed::offset_of_zigzag(low);
    if base::MAX_WIDTH < width || base::MAX_READING - reading < width {
        return Err(Question::RangeLimits);
    }
    Ok(reading)
}
