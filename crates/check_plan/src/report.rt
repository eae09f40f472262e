// What is said of a drawing, or of a range.
use base::{Question, Refusal};
use drawing::Drawing;
use plan_messages::Bound;
use range_plan::{Fields, PLAN_SIZE};
use std::io;

// An edge refused by 7: a vertex joined to itself, or a number that is too large.
fn print_ends(rt: &impl Print, is_loop: bool) -> io::Result<()> {
    if is_loop {
        return println!(rt; "an edge from a vertex to itself");
    }
    print!(rt; "a number above the number of edges: ")?;
    println!(rt; "vertices are numbered from 0 without gaps, or an edge is missing")
}

fn print_too_many(rt: &impl Print) -> io::Result<()> {
    println!(rt;
        "more than {} edges: too large a tree, or a ring in it",
        base::MAX_ROWS
    )
}

fn print_crowded(rt: &impl Print) -> io::Result<()> {
    println!(rt; "more than {} edges at one vertex", base::MAX_DEGREE)
}

// A range refused by 10.
fn print_wide(rt: &impl Print) -> io::Result<()> {
    print!(rt; "more than {} positions, ", base::MAX_WIDTH + 1)?;
    println!(rt; "or a reading above {}", base::OFFSET_ZERO - 1)
}

// What usually causes a refusal of a drawing's plan. That a tree gets no number but 6 to 9 is proved (drawing/specs/Statement.antt); a range should get none
// but 10.
fn print_cause(rt: &impl Print, question: Question, is_loop: bool) -> io::Result<()> {
    match question {
        Question::VertexCount => print_too_many(rt),
        Question::EdgeEnds => print_ends(rt, is_loop),
        Question::Acyclic => println!(rt; "a ring, or an edge given twice"),
        Question::Degree => print_crowded(rt),
        Question::RangeLimits => print_wide(rt),
        _ => println!(rt; "see the table of refusals"),
    }
}

fn print_refused(rt: &impl Print, refusal: Refusal, is_loop: bool) -> io::Result<()> {
    print!(rt; "{refusal} of its plan: ")?;
    print_cause(rt, refusal.question, is_loop)
}

// Edge k as it was drawn, if there is one.
fn print_edge(rt: &impl Print, edges: &Drawing, k: usize) -> io::Result<()> {
    if edges.kept() <= k {
        return Ok(());
    }
    println!(rt;
        "  line {}: {} {}",
        edges.lines[k], edges.one[k], edges.two[k]
    )
}

// The edges of the ring that a plan refused by 8 closes.
fn print_cycle(rt: &impl Print, plan: &[u8], edges: &Drawing) -> io::Result<()> {
    let cycle = plan_cycle::cycle_of(plan);
    for k in cycle.numbers.iter().take(cycle.count) {
        print_edge(rt, edges, usize::from(*k))?;
    }
    Ok(())
}

// The first line, and the edges to look at: the ring where one is closed, else the edge that is refused, if one is.
fn print_refusal(
    rt: &impl Print,
    plan: &[u8],
    edges: &Drawing,
    refusal: Refusal,
) -> io::Result<()> {
    let edge = edges.number_at(refusal.place);
    let is_loop = edge.is_some_and(|k| edges.one[k] == edges.two[k]);
    print_refused(rt, refusal, is_loop)?;
    if refusal.question == Question::Acyclic {
        return print_cycle(rt, plan, edges);
    }
    match edge {
        Some(k) => print_edge(rt, edges, k),
        None => Ok(()),
    }
}

// A hexadecimal digit.
fn digit(d: u8) -> u8 {
    let k = d % 16;
    if k < 10 { b'0' + k } else { b'A' + (k - 10) }
}

// A blank and a byte's two digits. By hand and in one write: with `{b:02X}` a drawing of 255 vertices took a quarter more time.
fn print_byte(rt: &impl Print, b: u8) -> io::Result<()> {
    rt.write_all(&[b' ', digit(b / 16), digit(b)])
}

// A plan that passes, with so many positions, which are called so; and how busy a vote on it makes the wire, at most.
fn print_plan(
    rt: &impl Print,
    plan: &[u8],
    positions: u64,
    called: &str,
    bound: Bound,
) -> io::Result<()> {
    print!(rt; "passes, {positions} {called}, plan")?;
    for b in plan {
        print_byte(rt, *b)?;
    }
    println!(rt)?;
    let Bound { levels, messages } = bound;
    let bytes = u64::from(messages) * base::MESSAGE_SIZE as u64;
    print!(rt; "  sending levels {levels}, messages at most {messages}")?;
    println!(rt; ", bytes at most {bytes}")
}

// The plan that the drawing makes, and what reading it finds.
pub fn print_drawing(rt: &impl Print, edges: &Drawing) -> io::Result<()> {
    let mut bytes = [0; drawing::PLAN_SIZE];
    let n = edges.write_plan(&mut bytes);
    let plan = &bytes[..n];
    match plan_messages::bound_of(plan) {
        Ok(bound) => print_plan(rt, plan, u64::from(edges.vertices()), "vertices", bound),
        Err(refusal) => print_refusal(rt, plan, edges, refusal),
    }
}

// Two readings of which no plan can be made.
fn print_no_range(rt: &impl Print) -> io::Result<()> {
    let least = base::OFFSET_ZERO;
    print!(rt; "no range: the lowest reading stands first, and readings go from -{least}")?;
    println!(rt; " to {}", base::OFFSET_ZERO - 1)
}

// The plan that a range makes, if there is one, and what reading it finds.
pub fn print_range(rt: &impl Print, fields: Option<Fields>) -> io::Result<()> {
    let Some(Fields { low, width }) = fields else {
        return print_no_range(rt);
    };
    let mut bytes = [0; PLAN_SIZE];
    let n = range_plan::write_plan(&mut bytes, low, width);
    let plan = &bytes[..n];
    match plan_messages::bound_of(plan) {
        Ok(bound) => print_plan(rt, plan, u64::from(width) + 1, "positions", bound),
        Err(refusal) => print_refused(rt, refusal, false),
    }
}

// The first line that cannot be read.
pub fn print_unreadable(rt: &impl Print, line: u64) -> io::Result<()> {
    print!(rt; "line {line} cannot be read: an edge is two vertex numbers, as 3 7; ")?;
    println!(rt; "a range is its lowest and its highest reading, as range -5 3")
}

// The number of a drawing, and its first line.
pub fn print_name(rt: &impl Print, drawing: u64, first: u64) -> io::Result<()> {
    print!(rt; "drawing {drawing}, line {first}: ")
}
