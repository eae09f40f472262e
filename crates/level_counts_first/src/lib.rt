// What rules 2 and 3 count and choose, of the sets of senders of a level: first echoes and the first proposal.
#![tactic(auto)]

ghost use Rattle.std.specs.Prelude.{◌≡◌, not, ◌&&◌, ◌+◌, ◌*◌, eqb, get_or};
ghost use Rattle.senders.specs.Senders.{union, union_over, at_least};
ghost use Rattle.level_counts_first.specs.Inner.{none_due, proposal_of};

use level_counts::{Counting, Heard};

// Rule 2: the senders that first-echoed a value other than the port.
#[tactic(auto, using(senders::proofs::Laws::over_none, senders::proofs::Laws::over_next))]
fn other_echoes(c: Counting, heard: &Heard, port: u8) -> senders::Mask
    ensures { result ≡ union_over (λ v. not (eqb v port)) (λ v. get_or heard.now v 0) (c.degree + 1) }
{
    let mut all = 0;
    for v in 0..=c.degree {
        if v != port {
            all = senders::either(all, heard[usize::from(v)]);
        }
    }
    all
}

// Rule 2: did t+1 senders first-echo a value other than the port?
pub fn none_due(c: Counting, heard: &Heard, port: u8) -> bool
    ensures { result ≡ none_due heard.now c.degree port c.t }
{
    let others = other_echoes(c, heard, port);
    senders::reaches(others, c.weak())
}

// Rule 3: t+1 senders first-echoed v and 2t+1 first-echoed v or none, whose senders are `mine` and `none`.
fn may_propose(c: Counting, mine: senders::Mask, none: senders::Mask) -> bool
    ensures { result ≡ (at_least (c.t + 1) mine && at_least (2 * c.t + 1) (union mine none)) }
{
    senders::reaches(mine, c.weak()) && senders::together(mine, none, c.strong())
}

// Rule 3: the value to propose, the smallest that may be proposed.
pub fn proposal(c: Counting, heard: &Heard) -> Option<u8>
    ensures { result ≡ proposal_of heard.now c.degree c.t }
{
    let none = heard[level_counts::NONE_PLACE];
    (0..=c.degree).find(|v| may_propose(c, heard[usize::from(*v)], none))
}
