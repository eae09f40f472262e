// A vote on the bench: boards, readings and messages from a script on standard input.
#![tactic(auto)]

use script::Step;
use script_input::Input;
use std::io;
use vote::Vote;

mod print;
mod vote;

// A proved loop has to end, and nothing says that the input does: the turns are counted up to a number that no run uses up.
// check_plan's loop goes on otherwise where the input fails: one of both would take a closure for each line and one for a failure, which is no plainer.
fn main(rt: HostRuntime) -> io::Result<()> {
    let mut stdin = rt.stdin();
    let mut input = Input::new();
    let mut vote = Vote::new();
    for _ in 0..u64::MAX {
        if !input.is_open() {
            break;
        }
        if let Some(step) = input.next(&mut stdin)?.and_then(Step::of) {
            vote.step(step);
        }
    }
    vote.report(&rt)
}
