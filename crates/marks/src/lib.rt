// A byte for each position, 1 for a member: counts, searches, members set, each in one pass.
// Bytes and no bools: `numbered` reads port numbers in the same array (crate component), and the sizes of subtrees begin as a copy of the marks.
#![tactic(auto)]

ghost use Rattle.std.specs.Prelude.{◌≡◌, ℕ, ◌≤◌, eqb, ltb, length, get_or};
ghost use Rattle.base.specs.Limits.{max_vertices};
ghost use Rattle.base.specs.Pick.{pick, smallest};
ghost use Rattle.base.specs.Sets.{bit, count};
ghost use Rattle.marks.specs.Marks.{marked, numbered};

// Has x a number other than 0?
#[tactic(auto, unfolding(crate::specs::Marks::numbered))]
pub fn has_number(m: &[u8], x: usize) -> bool
    ensures { result ≡ numbered m.now x }
{
    x < m.len() && m[x] != 0
}

// How many of the first n positions are members. They are counted in a byte.
pub fn count(m: &[u8], n: usize) -> usize
    requires { (n ≤ length m.now) × (n ≤ max_vertices) }
    ensures { result ≡ count n (marked m.now) }
{
    let mut r: u8 = 0;
    for x in 0..n {
        r += u8::from(m[x] == 1);
    }
    usize::from(r)
}

// The smallest member, or n where there is none below n, as `smallest` gives it: component, which asks, knows that there is one.
pub fn first(m: &[u8], n: usize) -> usize
    requires { n ≤ length m.now }
    ensures { result ≡ smallest n (marked m.now) }
{
    m[..n].iter().position(|&mark| mark == 1).unwrap_or(n)
}

// The first n positions become members.
pub fn fill(m: &mut [u8], n: usize)
    requires { n ≤ length m.old }
    ensures { (x : ℕ) → get_or m.new x 0 ≡ pick (ltb x n) 1 (get_or m.old x 0) }
{
    m[..n].fill(1);
}

// The positions with the number k, and no others, become members.
pub fn only(m: &mut [u8], k: u8)
    requires { 1 ≤ k }
    ensures { (x : ℕ) → get_or m.new x 0 ≡ bit (eqb (get_or m.old x 0) k) }
{
    for number in m.iter_mut() {
        *number = u8::from(*number == k);
    }
}
