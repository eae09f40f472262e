// Standard input as lines: it is read in pieces of a fixed size, and a line may have any length.
#![tactic(auto)]

ghost use Rattle.std.specs.Prelude.{◌≡◌, true, false, Some, None, Ok, IfOk, OnOk, OnErr, ◌≤◌, ◌<◌, eqb, take};
ghost use Rattle.std.specs.Io.KnownBytes.{Consumes, IsAtEnd, Keeps};
ghost use Rattle.base.specs.Pick.{pick};
ghost use Rattle.script_lines.specs.Lines.{no_line};
ghost use Rattle.script_input.specs.Input.{reading_on, line_in, rest_of};

use script_lines::{Line, scan};
use std::io;
use std::io::Read;

// How many bytes one read brings at most.
const BYTES: usize = 4096;

// The line that is being read; what the last read brought, and how much of it is used; and whether there may be more. A buffer with its length, since
// there is no heap and a read fills a part of it.
#[derive(Drop)]
pub struct Input {
    line: Line,
    bytes: [u8; BYTES],
    got: usize,
    at: usize,
    open: bool,
    ghost within: { got ≤ 4096 },
}

impl Input {
    // Nothing is read yet.
    pub fn new() -> Input
        ensures line { result.line ≡ no_line }
        ensures nothing { (result.got ≡ 0) × (result.at ≡ 0) }
        ensures open { result.open ≡ true }
    {
        Input {
            line: Line::blank(),
            bytes: [0; BYTES],
            got: 0,
            at: 0,
            open: true,
        }
    }

    // Until a read has brought nothing.
    pub fn is_open(&self) -> bool
        ensures { result ≡ self.now.open }
    {
        self.open
    }

    // The line, which ends here; another one begins.
    fn ended(&mut self, line: Line) -> Option<Line>
        ensures line { result ≡ Some line }
        ensures another { self.new.line ≡ no_line }
        ensures at { self.new.at ≡ self.old.at }
        ensures kept { (self.new.bytes ≡ self.old.bytes) × (self.new.got ≡ self.old.got) × (self.new.open ≡ self.old.open) }
    {
        self.line = Line::blank();
        Some(line)
    }

    // Reads on to the end of the line, or of what the last read brought: a line is given where it ends, and then another one begins.
    fn scanned(&mut self) -> Option<Line>
        ensures line { result ≡ line_in (reading_on self.old.line self.old.bytes self.old.got self.old.at) }
        ensures rest { self.new.line ≡ rest_of (reading_on self.old.line self.old.bytes self.old.got self.old.at) }
        ensures at { self.new.at ≡ (reading_on self.old.line self.old.bytes self.old.got self.old.at).next }
        ensures kept { (self.new.bytes ≡ self.old.bytes) × (self.new.got ≡ self.old.got) × (self.new.open ≡ self.old.open) }
    {
        let found = scan(self.line, &self.bytes[..self.got], self.at);
        self.at = found.next;
        if found.ended {
            return self.ended(found.line);
        }
        self.line = found.line;
        None
    }

    // Reads on; where nothing is left of what the last read brought, `from` brings more. Gives the line where it ends: at a newline, or, for the last one, which
    // may lack its newline, where a read brings nothing.
    pub fn next<R: Read>(&mut self, from: &mut R) -> io::Result<Option<Line>>
        // what is left of the last read comes first, and `from` is not asked
        ensures held { self.old.at < self.old.got → result ≡ Ok (line_in (reading_on self.old.line self.old.bytes self.old.got self.old.at)) }
        ensures rest { self.old.at < self.old.got → self.new.line ≡ rest_of (reading_on self.old.line self.old.bytes self.old.got self.old.at) }
        ensures at { self.old.at < self.old.got → self.new.at ≡ (reading_on self.old.line self.old.bytes self.old.got self.old.at).next }
        ensures kept { self.old.at < self.old.got → (self.new.bytes ≡ self.old.bytes) × (self.new.got ≡ self.old.got) × (self.new.open ≡ self.old.open) × (from.new ≡ from.old) }
        // where nothing is left, what `from` brings is held, all of it still to be read; where that is nothing, the line ends and there is no more
        ensures brought { self.old.got ≤ self.old.at → OnOk result ((self.new.at ≡ 0) × Consumes (R.remaining from.old) (R.remaining from.new) (take self.new.got self.new.bytes)) }
        ensures line { self.old.got ≤ self.old.at → IfOk result (λ l. l ≡ pick (eqb self.new.got 0) (Some self.old.line) None) }
        ensures another { self.old.got ≤ self.old.at → OnOk result (self.new.line ≡ pick (eqb self.new.got 0) no_line self.old.line) }
        ensures open { self.old.got ≤ self.old.at → OnOk result (self.new.open ≡ pick (eqb self.new.got 0) false self.old.open) }
        ensures end { self.old.got ≤ self.old.at → OnOk result (self.new.got ≡ 0 → IsAtEnd (R.remaining from.new)) }
        // a read that fails has used nothing
        ensures failed { OnErr result ((self.new.line ≡ self.old.line) × (self.new.got ≡ self.old.got) × (self.new.at ≡ self.old.at) × (self.new.open ≡ self.old.open) × Keeps (R.remaining from.old) (R.remaining from.new)) }
    {
        if self.at < self.got {
            return Ok(self.scanned());
        }
        let got = from.read(&mut self.bytes)?;
        self.got = got;
        self.at = 0;
        if got == 0 {
            self.open = false;
            let line = self.line;
            return Ok(self.ended(line));
        }
        Ok(None)
    }
}
