// What a board's calls give.
#![tactic(auto)]

ghost use Rattle.std.specs.Prelude.{◌≡◌};
ghost use Rattle.base.specs.Verdict.{as_verdict};
ghost use Rattle.party.specs.Tie.{as_party};
ghost use Rattle.board_calls.specs.Tie.{as_called};

// A range's kind of plan.
pub const RANGE: u32 = 2;

// What a start or take gives: the verdict, the party, the journal's used length, how many outgoing bytes it wrote and how many rules it applied.
// A refused call hands the party and the used length back too, so they stand beside the verdict and not inside it.
#[derive(Clone, Copy)]
pub struct Called {
    pub verdict: base::Verdict,
    pub party: party::Party,
    pub used: usize,
    pub sent: usize,
    pub rules: u32,
}

impl Called {
    // What a call that does nothing gives: one that is refused, or that brings a message that is held already.
    pub fn unchanged(verdict: base::Verdict, party: party::Party, used: usize) -> Called
        ensures { as_called result ≡ record { verdict = as_verdict verdict; party = as_party party; used = used; sent = 0; rules = 0 } }
    {
        Called {
            verdict,
            party,
            used,
            sent: 0,
            rules: 0,
        }
    }
}

// What a restore gives: the party, the length of the whole records, how many outgoing bytes it wrote and how many rules it applied.
#[derive(Clone, Copy)]
pub struct Restored {
    pub party: party::Party,
    pub used: usize,
    pub sent: usize,
    pub rules: u32,
}
