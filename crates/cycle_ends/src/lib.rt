// Two vertices kept at the root of each set of joined vertices, between which the cycle runs inside the set:
// how they begin, and what becomes of them where undoing an edge parts a set in two. The search that joins
// the edges and undoes them is crate cycle_search.
#![tactic(auto)]

ghost use Rattle.std.specs.Prelude.{◌≡◌, ℕ, ◌<◌, length, get_or, set};
ghost use Rattle.base.specs.Pick.{pick};
ghost use Rattle.base.specs.Limits.{max_vertices};
ghost use Rattle.union_find.specs.Inner.{root, together, Rooted};
ghost use Rattle.cycle_ends.specs.Inner.{pulled, projected, shifted};

// A number for each vertex.
pub type Column = [u16; base::MAX_VERTICES];

// The two vertices that are kept at each root.
#[derive(Clone, Copy)]
pub struct Ends {
    pub from: Column,
    pub to: Column,
}

impl Ends {
    // Every vertex is kept twice at its own place.
    pub fn keep_alone() -> Self
        ensures kept { (x : ℕ) → x < max_vertices → (get_or result.from x 0 ≡ x) × (get_or result.to x 0 ≡ x) }
        ensures long { (length result.from ≡ max_vertices) × (length result.to ≡ max_vertices) }
    {
        let mut own = [0u16; base::MAX_VERTICES];
        for (x, vertex) in own.iter_mut().enumerate() {
            *vertex = x as u16;
        }
        Ends { from: own, to: own }
    }

    // a and b, which are joined, are kept at their root.
    pub fn keep_ends(&mut self, up: &Column, a: u16, b: u16)
        requires { (a < max_vertices) × Rooted max_vertices up.now }
        ensures { (self.new.from ≡ set self.old.from (root max_vertices up.now a) a) × (self.new.to ≡ set self.old.to (root max_vertices up.now a) b) }
    {
        let r = union_find::root(up, base::MAX_VERTICES, usize::from(a));
        self.from[r] = a;
        self.to[r] = b;
    }

    // At the root r are kept x and y, each where it is in the set of r, else that end of the edge a-b which is.
    #[tactic(auto, unfolding(crate::specs::Inner::projected))]
    fn keep_pulled(&mut self, up: &Column, r: usize, a: u16, b: u16, x: u16, y: u16)
        requires { (r < max_vertices) × (a < max_vertices) × (x < max_vertices) × (y < max_vertices) × Rooted max_vertices up.now }
        ensures { (self.new.from ≡ set self.old.from r (projected max_vertices up.now r a b x)) × (self.new.to ≡ set self.old.to r (projected max_vertices up.now r a b y)) }
    {
        let c = pull(up, r, a, b);
        self.from[r] = pull(up, r, x, c);
        self.to[r] = pull(up, r, y, c);
    }

    // The set whose root was h is parted, at the edge a-b, into those of the roots l and h. Each keeps those
    // of the two kept at h that are in it, and in the place of one that is not, its own end of the edge. 1
    // where the two that were kept at h are parted, 0 where they are not.
    pub fn shift(&mut self, up: &Column, l: usize, h: usize, a: u16, b: u16) -> u8
        requires { (l < max_vertices) × (h < max_vertices) × (a < max_vertices) × (get_or self.old.from h 0 < max_vertices) × (get_or self.old.to h 0 < max_vertices) × Rooted max_vertices up.now }
        ensures { (self.new.from ≡ shifted max_vertices up.now l h a b self.old.from) × (self.new.to ≡ shifted max_vertices up.now l h a b self.old.to) × (result ≡ pick (together max_vertices up.now (get_or self.old.from h 0) (get_or self.old.to h 0)) 0 1) }
    {
        let x = self.from[h];
        let y = self.to[h];
        self.keep_pulled(up, l, a, b, x, y);
        self.keep_pulled(up, h, a, b, x, y);
        apart(up, x, y)
    }
}

// x where it is in the set of the root r, else c.
#[tactic(auto, unfolding(crate::specs::Inner::pulled))]
fn pull(up: &Column, r: usize, x: u16, c: u16) -> u16
    requires { (x < max_vertices) × Rooted max_vertices up.now }
    ensures { result ≡ pulled max_vertices up.now r x c }
{
    if union_find::root(up, base::MAX_VERTICES, usize::from(x)) == r {
        x
    } else {
        c
    }
}

// 1 where x and y are in two sets, 0 where they are in one.
fn apart(up: &Column, x: u16, y: u16) -> u8
    requires { (x < max_vertices) × (y < max_vertices) × Rooted max_vertices up.now }
    ensures { result ≡ pick (together max_vertices up.now x y) 0 1 }
{
    u8::from(!union_find::same(up, base::MAX_VERTICES, usize::from(x), usize::from(y)))
}
