// What calls are given and what they give, as plain numbers.
#![tactic(auto)]

use second_plan::question;

// A number as a u32, without what does not fit.
pub fn word(x: usize) -> u32 {
    (x % 4294967296) as u32
}

// A u32 as a number, for which there is no `From`.
pub fn wide(x: u32) -> usize {
    x as usize
}

// A refusal: the number of the question, and the place.
// A number and no enum: the two implementations have two enums of questions, and counts are printed by
// number.
#[derive(Clone, Copy, Debug, PartialEq, Eq)]
pub struct Refused {
    pub number: usize,
    pub place: usize,
}

// A refusal by the library.
impl From<base::Refusal> for Refused {
    fn from(refusal: base::Refusal) -> Refused {
        Refused {
            number: usize::from(refusal.question.number()),
            place: refusal.place,
        }
    }
}

// A refusal by the second implementation.
impl From<question::Refusal> for Refused {
    fn from(refusal: question::Refusal) -> Refused {
        Refused {
            number: refusal.question.number(),
            place: refusal.place,
        }
    }
}

// The number of a refusal; 0 for an accepted call, as the output counts them.
pub fn number_of(verdict: Result<(), Refused>) -> usize {
    match verdict {
        Ok(()) => 0,
        Err(refused) => refused.number,
    }
}

// Whether both implementations accept, or refuse by the same number at the same place.
pub fn is_same_verdict<A, B>(
    first: &Result<A, base::Refusal>,
    second: &Result<B, question::Refusal>,
) -> bool {
    match (first, second) {
        (Ok(_), Ok(_)) => true,
        (Err(first), Err(second)) => Refused::from(*first) == Refused::from(*second),
        _ => false,
    }
}

// So many bytes of a buffer from a place on, or none where there are not so many.
pub fn lent(buffer: &mut [u8], from: usize, count: usize) -> &mut [u8] {
    if from <= buffer.len() && count <= buffer.len() - from {
        &mut buffer[from..from + count]
    } else {
        &mut buffer[..0]
    }
}

// The same, only to be read.
pub fn part(bytes: &[u8], from: usize, count: usize) -> &[u8] {
    bytes.get(from..from.saturating_add(count)).unwrap_or(&[])
}
