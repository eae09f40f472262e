// The drawings of the input, line by line.
use crate::report;
use drawing::Drawing;
use drawing_lines::Said;
use script_lines::Line;
use script_numbers::Reading;
use std::io;

// The drawing that is being read: its first line, and the first line of it that cannot be read.
#[derive(Clone, Copy)]
struct Begun {
    first: u64,
    unreadable: Option<u64>,
}

// How many lines and drawings there are, and the drawing that is being read, with its edges.
#[derive(Clone, Copy)]
pub struct Sheet {
    lines: u64,
    drawings: u64,
    begun: Option<Begun>,
    edges: Drawing,
}

impl Sheet {
    // Nothing is read yet.
    pub fn new() -> Sheet {
        Sheet {
            lines: 0,
            drawings: 0,
            begun: None,
            edges: Drawing::new(),
        }
    }

    // This line belongs to a drawing, or begins one. That drawing so far.
    fn begin(&mut self) -> Begun {
        if let Some(begun) = self.begun {
            return begun;
        }
        self.drawings = self.drawings.saturating_add(1);
        // its columns stay as they are: what is not counted is not read
        self.edges.count = 0;
        let begun = Begun {
            first: self.lines,
            unreadable: None,
        };
        self.begun = Some(begun);
        begun
    }

    // The drawing ends, if there is one.
    fn end(&mut self, rt: &impl Print) -> io::Result<()> {
        let Some(begun) = self.begun else {
            return Ok(());
        };
        self.begun = None;
        report::print_name(rt, self.drawings, begun.first)?;
        match begun.unreadable {
            Some(line) => report::print_unreadable(rt, line),
            None => report::print_drawing(rt, &self.edges),
        }
    }

    // This line has the two readings of a range, which is a drawing by itself: the drawing before it ends, if there is one.
    fn range(&mut self, rt: &impl Print, low: Reading, high: Reading) -> io::Result<()> {
        self.end(rt)?;
        let begun = self.begin();
        self.begun = None;
        report::print_name(rt, self.drawings, begun.first)?;
        report::print_range(rt, range_plan::fields_of(low, high))
    }

    // A line.
    pub fn read(&mut self, rt: &impl Print, line: Line) -> io::Result<()> {
        self.lines = self.lines.saturating_add(1);
        match Said::of(line) {
            Some(Said::Nothing) => self.end(rt),
            Some(Said::Range(low, high)) => self.range(rt, low, high),
            Some(Said::Edge(a, b)) => {
                self.begin();
                self.edges.add_edge(self.lines, a, b);
                Ok(())
            }
            None => {
                let begun = self.begin();
                self.begun = Some(Begun {
                    unreadable: begun.unreadable.or(Some(self.lines)),
                    ..begun
                });
                Ok(())
            }
        }
    }

    // The input is at its end.
    pub fn close(&mut self, rt: &impl Print) -> io::Result<()> {
        if self.drawings == 0 {
            return println!(rt; "no drawing");
        }
        self.end(rt)
    }
}
