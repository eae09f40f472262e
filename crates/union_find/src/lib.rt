// Disjoint sets of positions (union-find by size) over lent arrays: are two positions joined through the edges so far?
#![tactic(auto)]

ghost use Rattle.std.specs.Prelude.{◌≡◌, [], ◌∷◌, ◌+◌, ◌≤◌, ◌<◌, length, get_or, set};
ghost use Rattle.base.specs.Limits.{max_vertices};
ghost use Rattle.tree.specs.Edges.{Edges};
ghost use Rattle.union_find.specs.Inner.{root, together, Rooted, Forest, Unions, Under};

// Every position its own set. The arrays are lent, with a number for each position, since there is no heap.
pub fn fresh(up: &mut [u16], weight: &mut [u16], n: usize)
    requires { (n ≤ length up.old) × (n ≤ length weight.old) × (n ≤ max_vertices) }
    ensures { Unions n [] up.new weight.new }
{
    for (x, above) in up[..n].iter_mut().enumerate() {
        *above = x as u16;
    }
    weight[..n].fill(1);
}

// The root of x's set.
pub fn root(up: &[u16], n: usize, x: usize) -> usize
    requires { (x < n) × (n ≤ length up.now) × Rooted n up.now }
    ensures { result ≡ root n up.now x }
{
    let mut r = x;
    // a `while`: how long the way up is shows only at its end
    while usize::from(up[r]) != r {
        r = usize::from(up[r]);
    }
    r
}

// Are a and b in one set?
pub fn same(up: &[u16], n: usize, a: usize, b: usize) -> bool
    requires { (a < n) × (b < n) × (n ≤ length up.now) × Rooted n up.now }
    ensures { result ≡ together n up.now a b }
{
    root(up, n, a) == root(up, n, b)
}

// The root `low` goes under the root `high`.
fn attach(up: &mut [u16], weight: &mut [u16], low: usize, high: usize)
    requires { (low < length up.old) × (high ≤ max_vertices) × (low < length weight.old) × (high < length weight.old) × (get_or weight.old low 0 + get_or weight.old high 0 ≤ max_vertices) }
    ensures { (up.new ≡ set up.old low high) × (weight.new ≡ set weight.old high (get_or weight.old low 0 + get_or weight.old high 0)) }
{
    up[low] = high as u16;
    weight[high] = weight[low] + weight[high];
}

// The sets of a and b become one: the root of the lighter goes under that of the heavier. Gives the root that was moved,
// or the common one where they are one set already: with it a root again, `up` is as before.
pub fn link(up: &mut [u16], weight: &mut [u16], n: usize, a: usize, b: usize) -> usize
    requires { (a < n) × (b < n) × (n ≤ length up.old) × (n ≤ length weight.old) × (n ≤ max_vertices) × Forest n up.old weight.old }
    ensures { ((E : Edges) → Unions n E up.old weight.old → Unions n (record { one = a; two = b } ∷ E) up.new weight.new) × Under n result up.old up.new }
{
    let p = root(up, n, a);
    let q = root(up, n, b);
    if p == q {
        return q;
    }
    if weight[p] <= weight[q] {
        attach(up, weight, p, q);
        return p;
    }
    attach(up, weight, q, p);
    q
}
