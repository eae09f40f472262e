// A pass over the rows of a tree in growth order: labels and neighbours. Sizes and the centre: tree_pass_centre.
#![tactic(auto)]

ghost use Rattle.std.specs.Prelude.{◌≡◌, ◌&&◌, ◌||◌, ℕ, ◌-◌, ◌≤◌, ◌<◌, length, get_or};
ghost use Rattle.base.specs.Limits.{max_vertices};
ghost use Rattle.tree.specs.Edges.{label, adjacent};
ghost use Rattle.marks.specs.Marks.{marked};
ghost use Rattle.tree_pass.specs.Inner.{handed, noted, beside};
ghost use Rattle.tree_pass.specs.Tree.{edges_of};

mod lent;

pub use lent::Tree;

// The parent and the child of row i.
pub fn row(tree: &Tree, i: usize) -> (usize, usize)
    requires { i < tree.now.positions - 1 }
    ensures parent { (result.0 ≡ get_or tree.now.parents.now i 0) × (result.0 < tree.now.positions) }
    ensures child { (result.1 ≡ get_or tree.now.children.now i 0) × (result.1 < tree.now.positions) }
{
    (usize::from(tree.parents[i]), usize::from(tree.children[i]))
}

// Every position its own label.
fn fresh(out: &mut [u8], n: usize)
    requires { (n ≤ length out.old) × (n ≤ max_vertices) }
    ensures { (x : ℕ) → x < n → get_or out.new x 0 ≡ x }
{
    for (x, label) in out[..n].iter_mut().enumerate() {
        *label = x as u8;
    }
}

// w is marked, if it is in the set.
#[tactic(auto, unfolding(crate::specs::Inner::noted, marks::specs::Marks::marked))]
fn note(ins: &[u8], near: &mut [u8], w: usize)
    requires { (w < length ins.now) × (w < length near.old) }
    ensures { near.new ≡ noted ins.now near.old w }
{
    if ins[w] == 1 {
        near[w] = 1;
    }
}

// A row from p to v: v takes p's label, if both are in the set; and the end beside c is marked, if it is in the set, which c is not.
#[tactic(auto, unfolding(crate::specs::Inner::noted, crate::specs::Inner::beside, crate::specs::Inner::handed, marks::specs::Marks::marked))]
fn pass(ins: &[u8], out: &mut [u8], near: &mut [u8], c: usize, p: usize, v: usize)
    requires { (p < length ins.now) × (v < length ins.now) × (p < length out.old) × (v < length out.old) × (p < length near.old) × (v < length near.old) × (get_or ins.now c 0 ≡ 0) }
    ensures labels { out.new ≡ handed ins.now out.old p v }
    ensures near { near.new ≡ beside ins.now near.old c p v }
{
    if ins[p] == 1 {
        if ins[v] == 1 {
            out[v] = out[p];
        } else if c == v {
            near[p] = 1;
        }
    } else if c == p {
        note(ins, near, v);
    }
}

// A label for each position: two members of the set have the same exactly when rows inside the set join them. And every member that a row joins
// to c, which is none, is marked.
pub fn around(tree: &Tree, ins: &[u8], out: &mut [u8], near: &mut [u8], c: usize)
    requires { (tree.now.positions ≤ length ins.now) × (tree.now.positions ≤ length out.old) × (tree.now.positions ≤ length near.old) × (get_or ins.now c 0 ≡ 0) }
    ensures labels { (x : ℕ) → x < tree.now.positions → get_or out.new x 0 ≡ label (marked ins.now) (edges_of tree.now) x }
    ensures near { (x : ℕ) → marked near.new x ≡ (marked near.old x || (marked ins.now x && adjacent (edges_of tree.now) c x)) }
{
    fresh(out, tree.positions);
    for i in 0..tree.positions - 1 {
        let (p, v) = row(tree, i);
        pass(ins, out, near, c, p, v);
    }
}
