// A start by a probe's count, and the answer as a count. Neither asks anything of the caller.
#![tactic(auto)]

ghost use Rattle.std.specs.Prelude.{◌≡◌, ◌<◌, IfSome, T, eqb, length};
ghost use Rattle.base.specs.Pick.{pick};
ghost use Rattle.rounding.specs.Rounding.{size_passes};
ghost use Rattle.plan.specs.Tie.{as_plan};
ghost use Rattle.level.specs.Level.{no_output};
ghost use Rattle.party.specs.Tie.{as_party};
ghost use Rattle.board_calls.specs.Answers.{position_of};
ghost use Rattle.board_calls.specs.Counts.{start_count_questions, count_of, count_questions, count_gives};
ghost use Rattle.board_calls.specs.Tie.{as_called, as_position, as_answered};
ghost use Rattle.board_counts.specs.Inner.{RefusedBy, Small};
ghost use Rattle.board_counts.specs.Results.{CountStarts};

use base::{Question, Refusal};
use board_calls::Called;
use board_questions::Door;
use party::Party;

// What a start by count gives: what a start gives, and, of an accepted one, the count's remainder.
#[derive(Clone, Copy)]
pub struct CountStarted {
    pub called: Called,
    pub remainder: Option<i64>,
}

// The position of a step. "A rounded step off the range, or a plan that is no range, is refused by 12".
fn step_position(plan: plan::Plan, step: i64) -> Option<base::Position>
    ensures gives { as_position result ≡ pick (eqb plan.kind 2) (position_of (as_plan plan) step) no_output }
    ensures on_plan { IfSome result (λ y. y < plan.count) }
{
    if plan.kind != board_calls::RANGE {
        return None;
    }
    board_positions::position_of(plan, step)
}

// What refuses a start by count whose size does not pass: 19, 18 and 20 are asked before 25.
fn refuse_size(p: Party, room: usize, used: usize, out: usize) -> base::Verdict
    ensures { RefusedBy (as_party p) room used out result }
{
    let _answer = board_ends::read_answer(p)?;
    // the reading asked 19
    let door = Door {
        valid: true,
        room,
        used,
        out,
    };
    door.ask()?;
    Err(Question::StepSize.into())
}

// The start of the count's nearest step, in steps of `size` counts. Its parameters are those that README lists.
pub fn start_count(
    p: Party,
    size: u32,
    count: i64,
    journal: &mut [u8],
    used: usize,
    out: &mut [u8],
) -> CountStarted
    ensures { CountStarts size count (start_count_questions (as_party p) size count (length journal.old) used (length out.old)) (as_party p) used journal.old out.old (as_called result.called) result.remainder journal.new out.new }
{
    if !rounding::size_passes(size) {
        let verdict = refuse_size(p, journal.len(), used, out.len());
        return CountStarted {
            called: Called::unchanged(verdict, p, used),
            remainder: None,
        };
    }
    let r = rounding::round(size, count);
    let x = step_position(p.plan, r.step);
    let called = board_door::start_at(p, x, journal, used, out);
    CountStarted {
        called,
        remainder: called.verdict.is_ok().then_some(r.remainder),
    }
}

// A step's answer as a count, if there is one.
fn count_of(size: u32, count: i64, a: Option<i64>) -> Option<i64>
    requires { T (size_passes size) × Small a }
    ensures { result ≡ count_of size count a }
{
    a.map(|y| rounding::count_answer(size, count, y))
}

// The answer as a count, for a board that started from this count, if there is one yet.
pub fn read_count(p: Party, size: u32, count: i64) -> Result<Option<i64>, Refusal>
    ensures { as_answered result ≡ count_gives (count_questions (as_party p) size count) }
{
    // taken out before the record goes to its reading
    let plan = p.plan;
    let answer = board_ends::read_answer(p)?;
    if !rounding::size_passes(size) {
        return Err(Question::StepSize.into());
    }
    let r = rounding::round(size, count);
    if step_position(plan, r.step).is_none() {
        return Err(Question::OnPlan.into());
    }
    Ok(count_of(size, count, answer))
}
