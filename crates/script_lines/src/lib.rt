// A line of text, word by word, read byte by byte: lines of any length are read with no buffer.
#![tactic(auto)]

ghost use Rattle.std.specs.Prelude.{◌≡◌, drop};
ghost use Rattle.script_lines.specs.Lines.{no_line, word_of, line_with, Scans};

use script_commands::Keyword;
use script_numbers::Number;
use script_words::is_blank;

// A line so far: how many words there are (4 stands for more), whether the last one goes on, the first one as a keyword, and the first three as numbers.
#[derive(Clone, Copy, Debug, PartialEq, Eq)]
pub struct Line {
    pub words: u8,
    pub inside: bool,
    pub keyword: Keyword,
    pub first: Number,
    pub second: Number,
    pub third: Number,
}

// What reading on finds: whether the line ends, the line so far, and the place past what was read. Line and place are there either way.
#[derive(Clone, Copy, Debug, PartialEq, Eq)]
pub struct Scanned {
    pub ended: bool,
    pub line: Line,
    pub next: usize,
}

impl Line {
    // A line with no byte yet.
    pub fn blank() -> Line
        ensures { result ≡ no_line }
    {
        Line {
            words: 0,
            inside: false,
            keyword: Keyword::blank(),
            first: Number::blank(),
            second: Number::blank(),
            third: Number::blank(),
        }
    }

    // The number of the word that the next byte belongs to, if it is no blank.
    fn word(self) -> u8
        ensures { result ≡ word_of self }
    {
        if self.inside {
            return self.words;
        }
        self.words.min(3) + 1
    }

    // The line with one byte more.
    #[tactic(auto, unfolding(crate::specs::Lines::line_with))]
    fn with(self, b: u8) -> Line
        ensures { result ≡ line_with self b }
    {
        if is_blank(b) {
            return Line {
                inside: false,
                ..self
            };
        }
        let line = Line {
            words: self.word(),
            inside: true,
            ..self
        };
        match line.words {
            1 => Line {
                keyword: line.keyword.with(b),
                first: line.first.with(b),
                ..line
            },
            2 => Line {
                second: line.second.with(b),
                ..line
            },
            3 => Line {
                third: line.third.with(b),
                ..line
            },
            _ => line,
        }
    }
}

// The bytes from `at` on are read into the line, up to the next newline, where the line ends, or to their end.
pub fn scan(line: Line, s: &[u8], at: usize) -> Scanned
    ensures { Scans line (drop at s.now) at result }
{
    let mut line = line;
    for i in at..s.len() {
        let b = s[i];
        if b == b'\n' {
            return Scanned {
                ended: true,
                line,
                next: i + 1,
            };
        }
        line = line.with(b);
    }
    Scanned {
        ended: false,
        line,
        next: at.max(s.len()),
    }
}
