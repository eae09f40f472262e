// Passes over the rows of a tree in growth order, for all components of a forest at once: labels, sizes of subtrees, light members.
#![tactic(auto)]

ghost use Rattle.std.specs.Prelude.{◌≡◌, not, ◌&&◌, ℕ, ◌≤◌, ◌<◌, T, ltb, length, get_or};
ghost use Rattle.base.specs.Limits.{max_vertices};
ghost use Rattle.base.specs.Pick.{pick};
ghost use Rattle.base.specs.Sets.{bit};
ghost use Rattle.tree.specs.Edges.{label};
ghost use Rattle.tree.specs.Inner.{subtree};
ghost use Rattle.tree_rounds.specs.Inner.{bad_in};
ghost use Rattle.marks.specs.Marks.{marked};
ghost use Rattle.tree_pass.specs.Tree.{edges_of};
ghost use Rattle.tree_pass_forest.specs.Inner.{size_at, light_in};

use tree_pass::Tree;

// A byte for each position.
pub type Bytes = [u8; base::MAX_VERTICES];

// What the passes find of a forest: at each position the label of its component, how many members hang below it, and whether it is light.
#[derive(Clone, Copy)]
pub struct Forest {
    pub labels: Bytes,
    pub sub: Bytes,
    pub light: Bytes,
}

// How many members hang below each position: a pass back over the rows, which adds up what each position holds.
fn sizes(tree: &Tree, ins: &[u8], sub: &mut [u8])
    requires { (tree.now.positions ≤ length ins.now) × (tree.now.positions ≤ length sub.old) × ((x : ℕ) → x < tree.now.positions → get_or sub.old x 0 ≡ bit (marked ins.now x)) }
    ensures { (x : ℕ) → x < tree.now.positions → get_or sub.new x 0 ≡ subtree (marked ins.now) (edges_of tree.now) x }
{
    for i in (0..tree.positions - 1).rev() {
        let (p, v) = tree_pass::row(tree, i);
        tree_pass_centre::raise(ins, sub, p, v);
    }
}

// Each position loses its mark of which some row shows that it is not light in its component, whose size stands at its label.
fn clear_shown(tree: &Tree, ins: &[u8], labels: &[u8], sub: &[u8], light: &mut [u8])
    requires { (tree.now.positions ≤ length ins.now) × (tree.now.positions ≤ length labels.now) × (tree.now.positions ≤ length sub.now) × (tree.now.positions ≤ length light.old) × ((x : ℕ) → x < tree.now.positions → get_or labels.now x 0 < tree.now.positions) }
    ensures { (x : ℕ) → marked light.new x ≡ (marked light.old x && not (bad_in (marked ins.now) (λ y. get_or sub.now y 0) (size_at labels.now sub.now) (edges_of tree.now) x)) }
{
    for i in 0..tree.positions - 1 {
        let (p, v) = tree_pass::row(tree, i);
        let s = usize::from(sub[usize::from(labels[v])]);
        tree_pass_centre::clear(ins, sub, light, s, p, v);
    }
}

// The marks of the first n positions, in a room for each position there can be.
fn copied(ins: &[u8], n: usize) -> Bytes
    requires { (n ≤ length ins.now) × (n ≤ max_vertices) }
    ensures { (x : ℕ) → get_or result x 0 ≡ pick (ltb x n) (get_or ins.now x 0) 0 }
{
    let mut marks = [0u8; base::MAX_VERTICES];
    marks[..n].copy_from_slice(&ins[..n]);
    marks
}

// Labels, sizes of subtrees and light members of the forest.
pub fn components(tree: &Tree, ins: &[u8]) -> Forest
    requires { (tree.now.positions ≤ length ins.now) × ((x : ℕ) → get_or ins.now x 0 ≤ 1) × ((x : ℕ) → T (marked ins.now x) → x < tree.now.positions) }
    ensures labels { (x : ℕ) → x < tree.now.positions → get_or result.labels x 0 ≡ label (marked ins.now) (edges_of tree.now) x }
    ensures sizes { (x : ℕ) → x < tree.now.positions → get_or result.sub x 0 ≡ subtree (marked ins.now) (edges_of tree.now) x }
    ensures light { (x : ℕ) → marked result.light x ≡ light_in (marked ins.now) (edges_of tree.now) x }
{
    let mut labels = [0u8; base::MAX_VERTICES];
    // the number of positions is none, so that nothing is marked as near it: only the labels are wanted
    let mut near = [0u8; base::MAX_VERTICES];
    tree_pass::around(tree, ins, &mut labels, &mut near, tree.positions);
    let mut sub = copied(ins, tree.positions);
    let mut light = sub;
    sizes(tree, ins, &mut sub);
    clear_shown(tree, ins, &labels, &sub, &mut light);
    Forest { labels, sub, light }
}
