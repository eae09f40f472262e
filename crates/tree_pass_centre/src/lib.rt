// A pass back over the rows of a tree in growth order: sizes of subtrees, and the smallest light member.
#![tactic(auto)]

ghost use Rattle.std.specs.Prelude.{◌≡◌, not, ◌&&◌, ℕ, ◌≤◌, ◌<◌, length, get_or};
ghost use Rattle.base.specs.Pick.{smallest};
ghost use Rattle.base.specs.Sets.{bit};
ghost use Rattle.tree.specs.Inner.{subtree, bad, unshown};
ghost use Rattle.marks.specs.Marks.{marked};
ghost use Rattle.tree_pass.specs.Tree.{edges_of};
ghost use Rattle.tree_pass_centre.specs.Inner.{raised, Room, cleared};

use tree_pass::Tree;

// What v holds goes up to p, if both are in the set.
#[tactic(auto, unfolding(crate::specs::Inner::raised, marks::specs::Marks::marked))]
pub fn raise(ins: &[u8], sub: &mut [u8], p: usize, v: usize)
    requires { (p < length ins.now) × (v < length ins.now) × (p < length sub.old) × (v < length sub.old) × Room ins.now sub.old p v }
    ensures { sub.new ≡ raised ins.now sub.old p v }
{
    if ins[p] == 1 && ins[v] == 1 {
        sub[p] += sub[v];
    }
}

// The end beyond which more than half of the s members lie loses its mark.
#[tactic(auto, unfolding(crate::specs::Inner::cleared, marks::specs::Marks::marked))]
pub fn clear(ins: &[u8], sub: &[u8], light: &mut [u8], s: usize, p: usize, v: usize)
    requires { (p < length ins.now) × (v < length ins.now) × (v < length sub.now) × (p < length light.old) × (v < length light.old) }
    ensures { light.new ≡ cleared ins.now sub.now light.old s p v }
{
    if ins[p] == 1 && ins[v] == 1 {
        let twice = usize::from(sub[v]) * 2;
        if twice > s {
            light[p] = 0;
        } else if twice < s {
            light[v] = 0;
        }
    }
}

// Each position loses its mark of which some row shows that it is not light. A row adds up the members below its child, which are complete as it comes.
fn clear_shown(tree: &Tree, ins: &[u8], sub: &mut [u8], light: &mut [u8], s: usize)
    requires { (tree.now.positions ≤ length ins.now) × (tree.now.positions ≤ length sub.old) × (tree.now.positions ≤ length light.old) × ((x : ℕ) → x < tree.now.positions → get_or sub.old x 0 ≡ bit (marked ins.now x)) }
    ensures { (x : ℕ) → marked light.new x ≡ (marked light.old x && not (bad (marked ins.now) (subtree (marked ins.now) (edges_of tree.now)) s (edges_of tree.now) x)) }
{
    for i in (0..tree.positions - 1).rev() {
        let (p, v) = tree_pass::row(tree, i);
        clear(ins, sub, light, s, p, v);
        raise(ins, sub, p, v);
    }
}

// The smallest member of which no row shows that it is not light.
pub fn centre(tree: &Tree, ins: &[u8; base::MAX_VERTICES]) -> usize
    requires { (x : ℕ) → get_or ins.now x 0 ≤ 1 }
    ensures { result ≡ smallest tree.now.positions (unshown (edges_of tree.now) tree.now.positions (marked ins.now)) }
{
    let n = tree.positions;
    let s = marks::count(ins, n);
    let mut sub = *ins;
    let mut light = *ins;
    clear_shown(tree, ins, &mut sub, &mut light, s);
    marks::first(&light, n)
}
