// The first word of a line, letter by letter.
#![tactic(auto)]

ghost use Rattle.std.specs.Prelude.{◌≡◌};
ghost use Rattle.script_commands.specs.Commands.{spelling};
ghost use Rattle.script_commands.specs.Inner.{by_initial, continues, no_keyword, keyword_with, command_named};

// A command, which the first word of a line names.
#[derive(Clone, Copy, Debug, PartialEq, Eq)]
pub enum Command {
    Boards,
    Agreement,
    Range,
    Start,
    Give,
}

// The first word so far: the command whose name begins so, if there is one, and how many letters there are.
#[derive(Clone, Copy, Debug, PartialEq, Eq)]
pub struct Keyword {
    pub command: Option<Command>,
    pub letters: usize,
}

impl Command {
    // Its name.
    fn name(self) -> &'static [u8]
        ensures { result.now ≡ spelling self }
    {
        match self {
            Command::Boards => b"boards",
            Command::Agreement => b"agreement",
            Command::Range => b"range",
            Command::Start => b"start",
            Command::Give => b"give",
        }
    }

    // The command whose name begins with this letter.
    fn by_initial(b: u8) -> Option<Command>
        ensures { result ≡ by_initial b }
    {
        match b {
            b'b' => Some(Command::Boards),
            b'a' => Some(Command::Agreement),
            b'r' => Some(Command::Range),
            b's' => Some(Command::Start),
            b'g' => Some(Command::Give),
            _ => None,
        }
    }
}

impl Keyword {
    // A word with no letter yet.
    pub fn blank() -> Keyword
        ensures { result ≡ no_keyword }
    {
        Keyword {
            command: None,
            letters: 0,
        }
    }

    // Does the name go on with this letter?
    fn continues(self, b: u8) -> bool
        ensures { result ≡ continues self b }
    {
        match self.command {
            Some(c) => c.name().get(self.letters) == Some(&b),
            None => false,
        }
    }

    // The word with one byte more.
    #[tactic(auto, unfolding(crate::specs::Inner::keyword_with))]
    pub fn with(self, b: u8) -> Keyword
        ensures { result ≡ keyword_with self b }
    {
        if self.letters == 0 {
            return Keyword {
                command: Command::by_initial(b),
                letters: 1,
            };
        }
        if self.continues(b) {
            return Keyword {
                letters: self.letters + 1,
                ..self
            };
        }
        Keyword {
            command: None,
            ..self
        }
    }

    // The command that the whole word names.
    #[tactic(auto, unfolding(crate::specs::Inner::command_named))]
    pub fn named(self) -> Option<Command>
        ensures { result ≡ command_named self }
    {
        self.command.filter(|c| c.name().len() == self.letters)
    }
}
