// The cycle that a rejected plan's edges close: from the plan's bytes alone.
#![tactic(auto)]

ghost use Rattle.std.specs.Prelude.{◌≡◌, ◌≤◌, length};
ghost use Rattle.base.specs.Found.{refused};
ghost use Rattle.base.specs.Limits.{max_rows};
ghost use Rattle.edges.specs.Rows.{rows};
ghost use Rattle.plan.specs.Reading.{plan_of};
ghost use Rattle.plan_cycle.specs.Cycle.{value_at, past_at, edges_to_rejected, listed, no_cycle, cycle_among, cycle_of};
ghost use Rattle.plan_cycle.specs.Inner.{marked};

use base::Question;
use varint::Parsed;

// Edges in plan order: how many, and of each its number among the plan's edges, counted from 0, and its two ends. The rest of the columns is 0.
// Columns of a fixed size with a count: `Explains` and the theorem of drawing_cycle speak of the columns, and an ArrayVec is not Copy, as a cycle is.
#[derive(Clone, Copy)]
pub struct Cycle {
    pub count: usize,
    pub numbers: [u16; base::MAX_ROWS],
    pub one: [u16; base::MAX_ROWS],
    pub two: [u16; base::MAX_ROWS],
}

// The varint that stands at `at`; value 0, and nothing passed, where none does.
fn varint_at(bytes: &[u8], at: usize) -> Parsed<u32>
    ensures { (result.value ≡ value_at bytes.now at) × (result.next ≡ past_at bytes.now at) }
{
    varint::read(bytes, at).unwrap_or(Parsed { value: 0, next: at })
}

// The edges of a plan that is refused by 8 at `place`, up to the rejected one, become rows. How many rows there are.
fn collect(bytes: &[u8], place: usize, one: &mut [u16], two: &mut [u16]) -> usize
    requires { (plan_of bytes.now ≡ refused 8 place) × (max_rows ≤ length one.old) × (max_rows ≤ length two.old) }
    ensures { (result ≤ max_rows) × (rows one.new two.new result ≡ edges_to_rejected bytes.now place) }
{
    let kind = varint_at(bytes, 0);
    let count = varint_at(bytes, kind.next);
    let mut at = count.next;
    for i in 0..base::MAX_ROWS {
        let first = varint_at(bytes, at);
        let second = varint_at(bytes, first.next);
        one[i] = first.value as u16;
        two[i] = second.value as u16;
        if first.next == place {
            return i + 1;
        }
        at = second.next;
    }
    unreachable!()
}

// No edges.
fn no_cycle() -> Cycle
    ensures { result ≡ no_cycle }
{
    Cycle {
        count: 0,
        numbers: [0; base::MAX_ROWS],
        one: [0; base::MAX_ROWS],
        two: [0; base::MAX_ROWS],
    }
}

// The edges whose numbers are marked by 1, of the first m rows.
fn list_marked(one: &[u16], two: &[u16], marks: &[u8], m: usize) -> Cycle
    requires { (m ≤ length one.now) × (m ≤ length two.now) × (m ≤ length marks.now) × (m ≤ max_rows) }
    ensures { result ≡ listed (marked marks.now) (rows one.now two.now m) }
{
    let mut cycle = no_cycle();
    for i in 0..m {
        if marks[i] == 1 {
            let n = cycle.count;
            cycle.numbers[n] = i as u16;
            cycle.one[n] = one[i];
            cycle.two[n] = two[i];
            cycle.count = n + 1;
        }
    }
    cycle
}

// The edges of the cycle that is closed where a plan is refused by 8 at `place`.
fn cycle_at(bytes: &[u8], place: usize) -> Cycle
    requires { plan_of bytes.now ≡ refused 8 place }
    ensures { result ≡ cycle_among (edges_to_rejected bytes.now place) }
{
    let mut one = [0; base::MAX_ROWS];
    let mut two = [0; base::MAX_ROWS];
    let mut marks = [0; base::MAX_ROWS];
    let m = collect(bytes, place, &mut one, &mut two);
    cycle_search::mark(&one, &two, m, &mut marks);
    list_marked(&one, &two, &marks, m)
}

// The edges of the cycle that the edge refused by 8 closes; none where the plan passes or is refused by another number.
pub fn cycle_of(bytes: &[u8]) -> Cycle
    ensures { result ≡ cycle_of bytes.now }
{
    let Err(refusal) = plan_reader::read(bytes) else {
        return no_cycle();
    };
    if refusal.question != Question::Acyclic {
        return no_cycle();
    }
    cycle_at(bytes, refusal.place)
}
