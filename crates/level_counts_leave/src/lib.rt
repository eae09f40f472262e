// What rules 12 and 13 count and choose, of the sets of senders of a level, to leave it on others' word: a side, the centre.
#![tactic(auto)]

ghost use Rattle.std.specs.Prelude.{◌≡◌, ◌+◌, get_or};
ghost use Rattle.senders.specs.Senders.{at_least};
ghost use Rattle.level_counts.specs.Places.{centres};
ghost use Rattle.level_counts_leave.specs.Inner.{side_of};

use level_counts::{CENTRES, Counting, Heard, SIDES};

// Rule 12: the smallest side with t+1 senders. (`find` was tried; the proof did not close.)
pub fn side(c: Counting, heard: &Heard) -> Option<u8>
    ensures { result ≡ side_of heard.now c.degree c.t }
{
    for k in 1..=c.degree {
        if senders::reaches(heard[SIDES + usize::from(k)], c.weak()) {
            return Some(k);
        }
    }
    None
}

// Rule 13: are there t+1 senders of the centre?
pub fn centre_due(c: Counting, heard: &Heard) -> bool
    ensures { result ≡ at_least (c.t + 1) (get_or heard.now centres 0) }
{
    senders::reaches(heard[CENTRES], c.weak())
}
