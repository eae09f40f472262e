// What a call gave.
pub use random_calls::Refused;

// The verdict, the used length, how many bytes of messages were made and how many rules were applied, the answer after it, and the remainder of a start by count.
// What a call does not give is 0 or none. The used length comes with a refusal too, so the verdict stands beside it.
#[derive(Clone, Copy, PartialEq, Eq)]
pub struct Outcome {
    pub verdict: Result<(), Refused>,
    pub used: usize,
    pub sent: usize,
    pub rules: usize,
    pub answer: Option<i64>,
    pub remainder: Option<i64>,
}

impl Outcome {
    // Of a call that gives no more than a verdict.
    pub fn new(verdict: Result<(), Refused>) -> Outcome {
        Outcome {
            verdict,
            used: 0,
            sent: 0,
            rules: 0,
            answer: None,
            remainder: None,
        }
    }
}
