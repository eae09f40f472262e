// Question 19's plan clause: is a plan part what reading a plan gives? One pass over its rows.
#![tactic(auto)]

ghost use Rattle.std.specs.Prelude.{◌≡◌, [], suc, ◌<◌, ◌≤◌, T, length, drop};
ghost use Rattle.edges.specs.Rows.{rows};
ghost use Rattle.plan.specs.Valid.{row_fits, rows_fit, all_zero, tree_valid, range_valid, plan_valid};
ghost use Rattle.plan_test.specs.Inner.{Noted};
ghost use Rattle.plan.specs.Tie.{as_plan};

// Does row i lead on, with room for an edge at both ends? If so they are noted.
fn row_fits(ps: &[u16], cs: &[u16], i: usize, seen: &mut [u8], many: &mut [u8], v: usize) -> bool
    requires { Noted v (rows ps.now cs.now i) seen.old many.old × (i < length ps.now) × (i < length cs.now) }
    ensures { (result ≡ row_fits v ps.now cs.now i) × (T result → Noted v (rows ps.now cs.now (suc i)) seen.new many.new) }
{
    let p = usize::from(ps[i]);
    let c = usize::from(cs[i]);
    if v <= p {
        return false;
    }
    if v <= c {
        return false;
    }
    if seen[p] != 1 {
        return false;
    }
    if seen[c] == 1 {
        return false;
    }
    let at_p = many[p];
    let at_c = many[c];
    if base::MAX_DEGREE <= at_p {
        return false;
    }
    if base::MAX_DEGREE <= at_c {
        return false;
    }
    seen[c] = 1;
    many[p] = at_p + 1;
    many[c] = at_c + 1;
    true
}

// Do the first m rows grow a tree, with room for an edge at both ends of each?
fn rows_fit(ps: &[u16], cs: &[u16], seen: &mut [u8], many: &mut [u8], v: usize, m: usize) -> bool
    requires { Noted v [] seen.old many.old × (m ≤ length ps.now) × (m ≤ length cs.now) }
    ensures { result ≡ rows_fit v ps.now cs.now m }
{
    for i in 0..m {
        if !row_fits(ps, cs, i, seen, many, v) {
            return false;
        }
    }
    true
}

// Is there nothing but 0 from a place on? One pass without an early end: over 254 zeros a sketch of it (rustc -O3, callgrind) takes 177 instructions, one
// of `iter().all`, which may end early and so looks at one number at a time, 1,535.
fn all_zero(l: &[u16], from: usize) -> bool
    ensures { result ≡ all_zero (drop from l.now) }
{
    let mut all: u16 = 0;
    for i in from..l.len() {
        all |= l[i];
    }
    all == 0
}

// Is this what reading a tree gives?
fn tree_valid(count: u32, low: u32, ps: &[u16; base::MAX_ROWS], cs: &[u16; base::MAX_ROWS]) -> bool
    ensures { result ≡ tree_valid (record { kind = 1; count = count; low = low; parent = ps.now; child = cs.now }) }
{
    if count < 1 {
        return false;
    }
    if base::MAX_VERTICES < count as usize {
        return false;
    }
    if low != 0 {
        return false;
    }
    let v = count as usize;
    let m = v - 1;
    let mut seen = [0u8; base::MAX_VERTICES];
    let mut many = [0u8; base::MAX_VERTICES];
    seen[0] = 1;
    if !rows_fit(ps, cs, &mut seen, &mut many, v, m) {
        return false;
    }
    if !all_zero(ps, m) {
        return false;
    }
    all_zero(cs, m)
}

// Is this what reading a range gives?
fn range_valid(count: u32, low: u32, ps: &[u16; base::MAX_ROWS], cs: &[u16; base::MAX_ROWS]) -> bool
    ensures { result ≡ range_valid (record { kind = 2; count = count; low = low; parent = ps.now; child = cs.now }) }
{
    if count < 1 {
        return false;
    }
    if base::MAX_WIDTH + 1 < count {
        return false;
    }
    if base::MAX_READING - low < count - 1 {
        return false;
    }
    if !all_zero(ps, 0) {
        return false;
    }
    all_zero(cs, 0)
}

// Is this a plan that a plan reading gives?
pub fn valid(plan: &plan::Plan) -> bool
    ensures { result ≡ plan_valid (as_plan plan.now) }
{
    if plan.kind == 1 {
        return tree_valid(plan.count, plan.low, &plan.parent, &plan.child);
    }
    if plan.kind == 2 {
        return range_valid(plan.count, plan.low, &plan.parent, &plan.child);
    }
    false
}
