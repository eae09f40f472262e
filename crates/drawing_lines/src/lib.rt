// A line of a drawing, as an installer writes it: what it says.
#![tactic(auto)]

ghost use Rattle.std.specs.Prelude.{◌≡◌};
ghost use Rattle.drawing_lines.specs.Inner.{said_by, Tells};

use script_commands::Command;
use script_lines::Line;
use script_numbers::{Number, Reading};

// What a line says: nothing, an edge between two vertices, or a range from its lowest reading to its highest.
#[derive(Clone, Copy, Debug, PartialEq, Eq)]
pub enum Said {
    Nothing,
    Edge(u32, u32),
    Range(Reading, Reading),
}

// So many words, of which the first is a command or a number, and the second and third are numbers.
fn said_by(command: Option<Command>, words: u8, x: Number, y: Number, z: Number) -> Option<Said>
    ensures { result ≡ said_by command words x y z }
{
    match (words, command) {
        (0, _) => Some(Said::Nothing),
        (2, _) => Some(Said::Edge(x.unsigned()?, y.unsigned()?)),
        (3, Some(Command::Range)) => Some(Said::Range(y.reading()?, z.reading()?)),
        _ => None,
    }
}

impl Said {
    // What the line says where it ends here, if it can be read.
    pub fn of(line: Line) -> Option<Said>
        ensures { Tells line result }
    {
        said_by(
            line.keyword.named(),
            line.words,
            line.first,
            line.second,
            line.third,
        )
    }
}
