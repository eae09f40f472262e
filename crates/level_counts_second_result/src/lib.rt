// What rule 8 counts and chooses, of the sets of senders of a level: the result and its grade.
#![tactic(auto)]

ghost use Rattle.std.specs.Prelude.{◌≡◌};
ghost use Rattle.level_counts_second_result.specs.Inner.{unsure_of, result_of};

use level_counts::{Counting, Heard, NONE, NONE_PLACE, SECOND_ECHOES, SECOND_PROPOSALS};

// A result: its value, or none; a value's grade is 2 if sure, else 1.
#[derive(Clone, Copy)]
pub struct Graded {
    pub value: u8,
    pub sure: bool,
}

// Grade 1: the value with t+1 second echoes, where none has as many and no other value has.
#[tactic(auto, using(crate::proofs::Rated::one_there))]
fn unsure(c: Counting, heard: &Heard) -> Option<u8>
    ensures { result ≡ unsure_of heard.now c.degree c.t }
{
    let k = c.weak();
    if !senders::reaches(heard[SECOND_ECHOES + NONE_PLACE], k) {
        return None;
    }
    if c.count_values(heard, SECOND_ECHOES, k) != 1 {
        return None;
    }
    c.first_value(heard, SECOND_ECHOES, k)
}

// The result, by n-t second proposals, else by second echoes.
#[tactic(auto, using(crate::proofs::Rated::sure_there, crate::proofs::Rated::sure_missing))]
pub fn result(c: Counting, heard: &Heard) -> Option<Graded>
    ensures { result ≡ result_of heard.now c.degree c.n c.t }
{
    if let Some(value) = c.first_candidate(heard, SECOND_PROPOSALS, c.quorum()) {
        return Some(Graded {
            value,
            sure: value != NONE,
        });
    }
    let value = unsure(c, heard)?;
    Some(Graded { value, sure: false })
}
