// Components of a tree given by its rows: the ports of all positions and the neighbours of the centre, each by one pass over the rows.
#![tactic(auto)]

ghost use Rattle.std.specs.Prelude.{◌≡◌, ℕ, suc, ◌+◌, ◌≤◌, ◌<◌, T, eqb, ltb, length, get_or, set};
ghost use Rattle.base.specs.Limits.{max_vertices};
ghost use Rattle.base.specs.Pick.{pick};
ghost use Rattle.base.specs.Sets.{bit, count};
ghost use Rattle.tree.specs.Component.{centre, degree, neighbour};
ghost use Rattle.marks.specs.Marks.{marked, numbered};
ghost use Rattle.tree_pass.specs.Tree.{edges_of};
ghost use Rattle.component_tree.specs.Inner.{Ports, Apart, found};
ghost use Rattle.component_tree.specs.Tree.{SetOf};

use tree_pass::Tree;

// Labels are bytes: a table has a place for each.
const LABELS: usize = 256;

// Where there is a mark, a neighbour is counted after the k before it, and its rank and one more is written at a place of the table; how many are counted then.
fn rank(mark: u8, table: &mut [u8], at: usize, k: u8) -> u8
    requires { (at < length table.old) × (mark ≡ 1 → k + 2 ≤ max_vertices) }
    ensures { (result ≡ k + bit (eqb mark 1)) × (table.new ≡ pick (eqb mark 1) (set table.old at (k + 2)) table.old) }
{
    if mark == 1 {
        table[at] = k + 2;
        return k + 1;
    }
    k
}

// How many neighbours there are; at the label of each its rank in rising order and one more is written.
fn ranks(near: &[u8], labels: &[u8], table: &mut [u8; LABELS], n: usize) -> usize
    requires { (n ≤ length near.now) × (n ≤ length labels.now) × Apart near.now labels.now n × (count n (marked near.now) < max_vertices) }
    ensures { (result ≡ count n (marked near.now)) × ((w : ℕ) → w < n → T (marked near.now w) → get_or table.new (get_or labels.now w 0) 0 ≡ suc (count (suc w) (marked near.now))) }
{
    let mut k = 0u8;
    for x in 0..n {
        k = rank(near[x], table, usize::from(labels[x]), k);
    }
    usize::from(k)
}

// v where there is a mark, else 0.
fn only(mark: u8, v: u8) -> u8
    ensures { result ≡ pick (eqb mark 1) v 0 }
{
    if mark == 1 { v } else { 0 }
}

// Each of the first n positions that is a member gets the number that the table has for its label.
#[tactic(auto, unfolding(marks::specs::Marks::marked))]
fn renumber(ports: &mut [u8], labels: &[u8], table: &[u8; LABELS], n: usize)
    requires { (n ≤ length ports.old) × (n ≤ length labels.now) }
    ensures { (x : ℕ) → get_or ports.new x 0 ≡ pick (ltb x n) (pick (marked ports.old x) (get_or table.now (get_or labels.now x 0) 0) 0) (get_or ports.old x 0) }
{
    for x in 0..n {
        ports[x] = only(ports[x], table[usize::from(labels[x])]);
    }
}

// How many neighbours the centre c of a component has; each position gets its port's number in place of its mark.
pub fn number(tree: &Tree, ports: &mut [u8; base::MAX_VERTICES], c: usize) -> usize
    requires { SetOf tree.now (marked ports.old) × ((x : ℕ) → get_or ports.old x 0 ≤ 1) × (c ≡ centre (edges_of tree.now) tree.now.positions (marked ports.old)) }
    ensures { (result ≡ degree (edges_of tree.now) tree.now.positions (marked ports.old)) × Ports (edges_of tree.now) tree.now.positions (marked ports.old) ports.new }
{
    let n = tree.positions;
    ports[c] = 0;
    let mut labels = [0u8; base::MAX_VERTICES];
    let mut near = [0u8; base::MAX_VERTICES];
    tree_pass::around(tree, ports, &mut labels, &mut near, c);
    let mut table = [0u8; LABELS];
    let d = ranks(&near, &labels, &mut table, n);
    renumber(ports, &labels, &table, n);
    ports[c] = 1;
    d
}

// v where the number x is a, else w.
fn if_number(x: u8, a: usize, v: usize, w: usize) -> usize
    ensures { result ≡ pick (eqb x a) v w }
{
    if usize::from(x) == a { v } else { w }
}

// The other end of a row at c, if its number is a; else w.
#[tactic(auto, unfolding(crate::specs::Inner::found))]
fn beside(ports: &[u8], c: usize, a: usize, p: usize, v: usize, w: usize) -> usize
    requires { (p < length ports.now) × (v < length ports.now) }
    ensures { result ≡ found ports.now c a p v w }
{
    if c == p {
        if_number(ports[v], a, v, w)
    } else if c == v {
        if_number(ports[p], a, p, w)
    } else {
        w
    }
}

// Neighbour k of the centre of a component.
pub fn neighbour(tree: &Tree, ports: &[u8], c: usize, k: usize) -> usize
    requires { SetOf tree.now (numbered ports.now) × Ports (edges_of tree.now) tree.now.positions (numbered ports.now) ports.now × (tree.now.positions ≤ length ports.now) × (c ≡ centre (edges_of tree.now) tree.now.positions (numbered ports.now)) × (1 ≤ k) × (k ≤ degree (edges_of tree.now) tree.now.positions (numbered ports.now)) }
    ensures { result ≡ neighbour (edges_of tree.now) tree.now.positions (numbered ports.now) k }
{
    let mut w = tree.positions;
    for i in 0..tree.positions - 1 {
        let (p, v) = tree_pass::row(tree, i);
        w = beside(ports, c, k + 1, p, v, w);
    }
    w
}
