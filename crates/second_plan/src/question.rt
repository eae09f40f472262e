// The questions of documents 01 and 02 by which calls are refused.

// The questions, by their numbers.
#[derive(Clone, Copy, Debug, PartialEq, Eq)]
pub enum Question {
    Boards = 1,
    Faults = 2,
    Own = 3,
    PlanGroup = 4,
    PlanKind = 5,
    Vertices = 6,
    Ends = 7,
    Joined = 8,
    Edges = 9,
    Range = 10,
    PlanEnd = 11,
    Position = 12,
    Started = 13,
    Sender = 14,
    Cut = 15,
    Number = 16,
    Journal = 17,
    Outgoing = 18,
    Party = 19,
    Used = 20,
    Record = 21,
    Malformed = 22,
    Outside = 23,
    End = 24,
    Step = 25,
    SameNumbers = 27,
}

impl Question {
    // The question's number.
    pub fn number(self) -> usize {
        self as usize
    }

    // A refusal by the question, at a place.
    pub fn at(self, place: usize) -> Refusal {
        Refusal {
            question: self,
            place,
        }
    }
}

// The first question that is answered no, and the place, 0 where it asks of none.
#[derive(Clone, Copy, Debug, PartialEq, Eq)]
pub struct Refusal {
    pub question: Question,
    pub place: usize,
}

impl From<Question> for Refusal {
    fn from(question: Question) -> Refusal {
        question.at(0)
    }
}
