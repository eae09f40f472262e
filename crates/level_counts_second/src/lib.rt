// What rules 6 and 7 count and choose, of the sets of senders of a level: second echoes and the second proposal.
#![tactic(auto)]

ghost use Rattle.std.specs.Prelude.{◌≡◌, not, ◌&&◌, ◌≤◌, IfSome};
ghost use Rattle.message.specs.Message.{none_value};
ghost use Rattle.senders.specs.Senders.{at_least};
ghost use Rattle.level_counts.specs.Choice.{first_value};
ghost use Rattle.level_counts_second.specs.Inner.{unechoed, echo_of, proposal_of};

use level_counts::{Counting, Heard, NONE, NONE_PLACE, SECOND_ECHOES};

// The set has k senders, and what they call for was not done yet.
fn due(m: senders::Mask, k: u32, done: bool) -> bool
    ensures { result ≡ (at_least k m && not done) }
{
    !done && senders::reaches(m, k)
}

// Rule 6: the smallest value with t+1 second echoes that was not echoed yet. (`find` was tried; the proof did not close.)
fn first_unechoed(c: Counting, heard: &Heard, echoed: &[bool; level_counts::VALUES]) -> Option<u8>
    ensures { result ≡ first_value c.degree (unechoed heard.now echoed.now c.t) }
{
    for v in 0..=c.degree {
        let w = usize::from(v);
        if due(heard[SECOND_ECHOES + w], c.weak(), echoed[w]) {
            return Some(v);
        }
    }
    None
}

// Rule 6: the value to echo, or else none.
pub fn echo(c: Counting, heard: &Heard, echoed: &[bool; level_counts::VALUES]) -> Option<u8>
    ensures choice { result ≡ echo_of heard.now echoed.now c.degree c.t }
    ensures candidate { IfSome result (λ w. w ≤ none_value) }
{
    if let Some(v) = first_unechoed(c, heard, echoed) {
        return Some(v);
    }
    due(
        heard[SECOND_ECHOES + NONE_PLACE],
        c.weak(),
        echoed[NONE_PLACE],
    )
    .then_some(NONE)
}

// Rule 7: the value or none to propose.
pub fn proposal(c: Counting, heard: &Heard) -> Option<u8>
    ensures { result ≡ proposal_of heard.now c.degree c.t }
{
    c.first_candidate(heard, SECOND_ECHOES, c.strong())
}
