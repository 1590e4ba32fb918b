//! What stands in a plan text before a line.

use burr_lines::Line;
use std::fmt;

/// What the lines before a line have that bears on what belongs next. All those lines are right.
#[derive(Clone, Copy, Default, Drop)]
pub struct Before<'a> {
    /// The first word of the last of them that is not skipped.
    pub word: &'a [u8],
    pub plan: Option<Line<'a>>,
    /// The last line of a procedure.
    pub procedure: Option<Line<'a>>,
    pub procedures: usize,
    /// The last line `label` or `exit`, with which a frame begins.
    pub head: Option<Line<'a>>,
    results: usize,
    places: usize,
}

/// What belongs next.
#[derive(Clone, Copy, Drop)]
pub enum Due {
    /// A line that is written so.
    Line(&'static str),
    /// The `at` line of a piece.
    Place(usize),
    Code,
}

impl<'a> Before<'a> {
    /// What stands in these lines before that of a number.
    pub fn of(lines: &[Line<'a>], number: usize) -> Before<'a> {
        let mut before = Before::default();
        for line in lines.iter().take(number.saturating_sub(1)) {
            before.add(*line);
        }
        before
    }

    /// Adds the next line.
    fn add(&mut self, line: Line<'a>) {
        if matches!(line.bytes, [] | [b';', ..]) {
            return;
        }
        self.word = line.word(0);
        match self.word {
            b"plan" | b"plan2" => self.plan = Some(line),
            b"proc" => {
                self.procedure = Some(line);
                self.procedures = self.procedures.saturating_add(1);
            }
            b"exit" | b"label" => {
                self.head = Some(line);
                self.results = 0;
                self.places = 0;
            }
            b"result" => self.results = self.results.saturating_add(1),
            b"at" => self.places = self.places.saturating_add(1),
            _ => {}
        }
    }

    /// What belongs next.
    pub fn due(&self) -> Due {
        match self.word {
            b"" => Due::Line("plan NAME PIECES BUDGET"),
            b"plan" => Due::Line("proc NAME 0"),
            b"plan2" => Due::Line("proc NAME 0 0"),
            b"proc" if self.is_in_exit() => Due::Line("exit TRAY SET"),
            b"exit" | b"result" if self.results < self.result_count() => Due::Line("result LO HI"),
            b"label" => Due::Line("frame TRAY SET"),
            b"exit" | b"result" | b"cost" => Due::Place(0),
            b"guard" if self.is_in_exit() => Due::Place(0),
            b"frame" | b"slot" | b"guard" | b"stack" => Due::Line("cost FORM"),
            b"at" if self.places < self.pieces() => Due::Place(self.places),
            b"at" if !self.is_in_exit() => Due::Code,
            b"at" | b"proc" => Due::Line("label NAME"),
            _ => Due::Code,
        }
    }

    /// Whether a line of an exit frame is the last one, or belongs next.
    pub fn is_in_exit(&self) -> bool {
        match self.head {
            Some(head) => self.word == b"proc".as_slice() || head.word(0) == b"exit".as_slice(),
            None => false,
        }
    }

    /// Whether procedures of the plan may have results.
    pub fn has_results(&self) -> bool {
        self.plan
            .is_some_and(|plan| plan.word(0) == b"plan2".as_slice())
    }

    /// How many pieces the plan is for.
    pub fn pieces(&self) -> usize {
        self.plan.map_or(0, |plan| usize::from(plan.number_in(2)))
    }

    /// How many results the last procedure has.
    fn result_count(&self) -> usize {
        self.procedure
            .map_or(0, |procedure| usize::from(procedure.number_in(3)))
    }
}

impl fmt::Display for Due {
    fn fmt<W: fmt::Write>(&self, f: &mut fmt::Formatter<W>) -> fmt::Result {
        match *self {
            Due::Line(form) => write!(f, "`{form}`"),
            Due::Place(piece) => write!(f, "`at {piece}`"),
            Due::Code => write!(f, "code, `label` or `proc`"),
        }
    }
}
