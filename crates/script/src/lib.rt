// The bench script: what a line of it says.
#![tactic(auto)]

ghost use Rattle.std.specs.Prelude.{◌≡◌};
ghost use Rattle.script.specs.Inner.{step_by, Tells};

use script_commands::Command;
use script_lines::Line;
use script_numbers::{Number, Reading};

// A step of the script.
#[derive(Clone, Copy, Debug, PartialEq, Eq)]
pub enum Step {
    Boards(u32, u32),
    Agreement(u32),
    Range(Reading, Reading),
    Start(u32, Reading),
    Give(u32, u32),
}

// A command and so many words, of which the second and third are these numbers.
fn step_by(command: Option<Command>, words: u8, x: Number, y: Number) -> Option<Step>
    ensures { result ≡ step_by command words x y }
{
    match (command?, words) {
        (Command::Boards, 3) => Some(Step::Boards(x.natural()?, y.natural()?)),
        (Command::Agreement, 2) => Some(Step::Agreement(x.natural()?)),
        (Command::Range, 3) => Some(Step::Range(x.reading()?, y.reading()?)),
        (Command::Start, 3) => Some(Step::Start(x.natural()?, y.reading()?)),
        (Command::Give, 3) => Some(Step::Give(x.natural()?, y.natural()?)),
        _ => None,
    }
}

impl Step {
    // The step that a line says where it ends here, if it can be read.
    pub fn of(line: Line) -> Option<Step>
        ensures { Tells line result }
    {
        step_by(line.keyword.named(), line.words, line.second, line.third)
    }
}
