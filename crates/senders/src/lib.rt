// Sets of senders as masks: digit s is 1 where board s is in the set.
#![tactic(auto)]

ghost use Rattle.std.specs.Prelude.{◌≡◌, ◌<◌, ◌≤◌, ◌^◌};
ghost use Rattle.base.specs.Limits.{max_boards};
ghost use Rattle.senders.specs.Senders.{is_in, with_sender, union, at_least};

// A set of senders: a digit for each of base::MAX_BOARDS boards. An alias with functions and no struct with methods: that sets are unsigned masks is a
// rule of the project, and the definitions speak of them as numbers (`is_in`, the party's list of them).
pub type Mask = u16;

// The set m with sender s.
pub fn add(m: Mask, s: u8) -> Mask
    requires { s < max_boards }
    ensures { result ≡ with_sender m s }
{
    m | (1u16 << s)
}

// Is sender s in the set?
#[tactic(auto, unfolding(crate::specs::Senders::is_in))]
pub fn contains(m: Mask, s: u8) -> bool
    requires { s < max_boards }
    ensures { result ≡ is_in m s }
{
    (m >> s) % 2 == 1
}

// Has the set at least k senders?
pub fn reaches(m: Mask, k: u32) -> bool
    ensures { result ≡ at_least k m }
{
    k <= u16::count_ones(m)
}

// Have two sets together at least k senders? One that is in both counts once.
pub fn together(a: Mask, b: Mask, k: u32) -> bool
    ensures { result ≡ at_least k (union a b) }
{
    k <= u16::count_ones(a | b)
}

// The senders of either set.
pub fn either(a: Mask, b: Mask) -> Mask
    ensures { result ≡ union a b }
{
    a | b
}

// Does the set name only boards below n?
pub fn only_below(m: Mask, n: u32) -> bool
    requires { n ≤ max_boards }
    ensures { result ≡ Rattle.senders.specs.Senders.only_below m n }
{
    n == base::MAX_BOARDS || m < (1u16 << n)
}
