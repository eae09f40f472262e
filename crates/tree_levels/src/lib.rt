// How many rounds take a tree apart, each component of three or more positions losing its centre in a round. A round takes a few passes over
// the rows and the positions, for all components of the forest at once.
#![tactic(auto)]

ghost use Rattle.std.specs.Prelude.{◌≡◌, ◌&&◌, ℕ, ◌≤◌, ◌<◌, T, ltb, get_or, set};
ghost use Rattle.base.specs.Limits.{max_vertices};
ghost use Rattle.base.specs.Pick.{pick};
ghost use Rattle.base.specs.Inner.{any_below};
ghost use Rattle.tree_rounds.specs.Inner.{any_large, split, Rounds};
ghost use Rattle.marks.specs.Marks.{marked};
ghost use Rattle.tree_pass.specs.Tree.{edges_of};
ghost use Rattle.tree_levels.specs.Inner.{light_large, outs};

use tree_pass::Tree;
use tree_pass_forest::{Bytes, Forest};

// x is taken out, if it is light in a component of three or more positions that has lost none yet, and the component's size is set to 0.
// Whether it is.
#[tactic(auto, unfolding(crate::specs::Inner::light_large, marks::specs::Marks::marked))]
fn take(alive: &mut Bytes, forest: &Forest, sub: &mut Bytes, x: usize) -> bool
    requires { (x < max_vertices) × (get_or forest.now.labels x 0 < max_vertices) }
    ensures value { result ≡ light_large forest.now.labels sub.old forest.now.light x }
    ensures alive { alive.new ≡ pick (light_large forest.now.labels sub.old forest.now.light x) (set alive.old x 0) alive.old }
    ensures sub { sub.new ≡ pick (light_large forest.now.labels sub.old forest.now.light x) (set sub.old (get_or forest.now.labels x 0) 0) sub.old }
{
    if forest.light[x] == 1 {
        let l = usize::from(forest.labels[x]);
        if sub[l] >= 3 {
            alive[x] = 0;
            sub[l] = 0;
            return true;
        }
    }
    false
}

// Of each component of three or more positions the first that is light is taken out; whether there is such a component.
fn take_out(alive: &mut Bytes, forest: &Forest, n: usize) -> bool
    requires { (n ≤ max_vertices) × ((x : ℕ) → x < n → get_or forest.now.labels x 0 < max_vertices) }
    ensures value { result ≡ any_below n (outs forest.now.labels forest.now.sub forest.now.light) }
    ensures alive { (x : ℕ) → get_or alive.new x 0 ≡ pick (ltb x n && outs forest.now.labels forest.now.sub forest.now.light x) 0 (get_or alive.old x 0) }
{
    // the sizes of the components that have lost none yet
    let mut sub = forest.sub;
    let mut any = false;
    for x in 0..n {
        let taken = take(alive, forest, &mut sub, x);
        any = taken || any;
    }
    any
}

// One round: the centre of each component of three or more positions is taken out; whether there is such a component.
fn round(tree: &Tree, alive: &mut Bytes) -> bool
    requires { ((x : ℕ) → get_or alive.old x 0 ≤ 1) × ((x : ℕ) → T (marked alive.old x) → x < tree.now.positions) }
    ensures value { result ≡ any_large (edges_of tree.now) tree.now.positions (marked alive.old) }
    ensures alive { (x : ℕ) → marked alive.new x ≡ split (edges_of tree.now) tree.now.positions (marked alive.old) x }
    ensures numbers { (x : ℕ) → get_or alive.new x 0 ≤ 1 }
{
    let forest = tree_pass_forest::components(tree, alive);
    take_out(alive, &forest, tree.positions)
}

// How many rounds find a component of three or more positions, from all n positions of the tree.
pub fn levels(tree: &Tree) -> u32
    ensures { Rounds (edges_of tree.now) tree.now.positions result }
{
    let mut alive = [0u8; base::MAX_VERTICES];
    marks::fill(&mut alive, tree.positions);
    // a `while` that counts its turns: how many rounds there are is what is asked
    let mut k = 0u32;
    while round(tree, &mut alive) {
        k += 1;
    }
    k
}
