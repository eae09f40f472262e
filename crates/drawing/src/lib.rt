// Drawings of trees, as an installer writes them: the edges drawn so far, and the plan that they make. What a line says is crate drawing_lines.
#![tactic(auto)]

ghost use Rattle.std.specs.Prelude.{◌≡◌, ◌+◌, ◌≤◌, ◌<◌, [], length, IfSome, unwrap_or};
ghost use Rattle.base.specs.Limits.{max_rows};
ghost use Rattle.base.specs.Put.{put_at};
ghost use Rattle.drawing.specs.Drawing.{with_edge, kept_of, plan_bytes, number_at};
ghost use Rattle.drawing.specs.Tie.{as_drawing};

// The most bytes of the plan of a drawing: varints for its kind, its vertex count and two ends in each row.
pub const PLAN_SIZE: usize = varint::MAX_PIECES as usize * (2 + 2 * base::MAX_ROWS);

// The count where no plan can have so many edges: a number and no None, since `with_edge` (specs/) counts so.
const MORE: u16 = base::MAX_ROWS as u16 + 1;

// The edges drawn so far: how many, at most one more than a plan can have; and of each that is kept its line and its two ends. Three columns and no array of
// edges, because drawing/specs/Statement.antt speaks of columns, as the plan that they become does.
#[derive(Clone, Copy)]
pub struct Drawing {
    pub count: u16,
    pub lines: [u64; base::MAX_ROWS],
    pub one: [u32; base::MAX_ROWS],
    pub two: [u32; base::MAX_ROWS],
}

impl Drawing {
    // Nothing is drawn yet.
    pub fn new() -> Drawing
        ensures { result.count ≡ 0 }
    {
        Drawing {
            count: 0,
            lines: [0; base::MAX_ROWS],
            one: [0; base::MAX_ROWS],
            two: [0; base::MAX_ROWS],
        }
    }

    // One edge more, with the ends a and b, drawn on this line: its row is written, if there is one for it.
    #[tactic(auto, unfolding(crate::specs::Drawing::with_edge))]
    pub fn add_edge(&mut self, line: u64, a: u32, b: u32)
        ensures { as_drawing self.new ≡ with_edge (as_drawing self.old) line a b }
    {
        let i = usize::from(self.count);
        if i < base::MAX_ROWS {
            self.lines[i] = line;
            self.one[i] = a;
            self.two[i] = b;
            self.count += 1;
        } else {
            self.count = MORE;
        }
    }

    // How many edges are kept.
    pub fn kept(&self) -> usize
        ensures { (result ≡ kept_of self.now.count) × (result ≤ max_rows) }
    {
        usize::from(self.count).min(base::MAX_ROWS)
    }

    // How many vertices the plan of so many edges has: one more.
    pub fn vertices(&self) -> u32
        ensures { result ≡ self.now.count + 1 }
    {
        u32::from(self.count) + 1
    }

    // The plan is written: a tree's kind, the vertex count, and the ends of each edge that is kept. Its length.
    pub fn write_plan(&self, out: &mut [u8; PLAN_SIZE]) -> usize
        ensures { (result ≡ length (plan_bytes self.now.count self.now.one self.now.two)) × (out.new ≡ put_at out.old 0 (plan_bytes self.now.count self.now.one self.now.two)) × (result ≤ length out.new) }
    {
        let n = self.kept();
        let head = varint::put(out, 0, 1);
        let mut at = varint::put(out, head, self.vertices());
        for i in 0..n {
            let second = varint::put(out, at, self.one[i]);
            at = varint::put(out, second, self.two[i]);
        }
        at
    }

    // The number of the edge whose second end stands at this place of the plan, counted from 0, if one does.
    pub fn number_at(&self, place: usize) -> Option<usize>
        ensures number { unwrap_or result (kept_of self.now.count) ≡ number_at self.now.count self.now.one self.now.two place }
        ensures within { IfSome result (λ k. k < kept_of self.now.count) }
    {
        let n = self.kept();
        let mut at = varint::size(1) + varint::size(self.vertices());
        for i in 0..n {
            let second = at + varint::size(self.one[i]);
            if second == place {
                return Some(i);
            }
            at = second + varint::size(self.two[i]);
        }
        None
    }
}
