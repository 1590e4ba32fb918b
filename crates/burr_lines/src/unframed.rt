//! A plan text in which `auto` stands in place of frames, and texts that have something in its place.

ghost use Rattle.std.specs.Prelude.{◌≡◌, ◌↔◌, ◌++◌, ◌∷◌, ℕ, List, IfOk, IsSome, IsTrue};
ghost use Rattle.std.specs.Option.{option_copied};
ghost use Rattle.burr_lines.specs.FilledTexts.{IsFilledIn};
ghost use Rattle.burr_lines.specs.Parts.{BeginsBy, FrameIsDue, HasAutoAt, IsDueAfter, IsFilledBy, IsMadeOf, OpensFrame, in_place, line_of, own_line};

use crate::lines::Line;
use crate::plan_text::{Report, Shown};
use burr_asm::{PlanPart, source_map};
use burr_code::limits::MOST_BUDGET;
use burr_text::cut_at;
use std::alloc::{AllocError, Global};
use std::marker::Model;

/// What stands in place of a frame.
const AUTO: &[u8] = b"auto";

/// A line of a plan text, and what is due where `auto` stands at its end.
#[derive(Clone, Copy)]
pub struct Part<'a> {
    pub line: &'a [u8],
    pub due: Option<Due>,
}

/// What is due in a plan text.
#[derive(Clone, Copy)]
pub enum Due {
    /// The budget, the last word of the plan's first line.
    Budget,
    /// The exit frame of a procedure with this number of results.
    Exit { procedure: usize, results: usize },
    /// The frame of the label of this number.
    Label(usize),
}

impl Part<'_> {
    /// Adds the plan's first line with a budget in place of its last word.
    pub fn add_with_budget(&self, budget: i64, text: &mut Report) {
        let front = Shown(self.line.strip_suffix(AUTO).unwrap_or(self.line));
        text.add_words(format_args!("{front}{budget}\n"));
    }

    /// Adds the line, or what is given for it where something is due.
    fn add_to(&self, fill: Option<&Option<String>>, made: &mut Vec<u8>) -> Result<(), AllocError>
        ensures { IfOk result (λ _done. made.new.items
            ≡ made.old.items ++ in_place (own_line self.now) self.now.due (option_copied fill.entry)) }
    {
        if self.due.is_some() {
            if let Some(Some(fill)) = fill {
                made.extend_from_slice(fill.as_bytes())?;
                return Ok(());
            }
        }
        made.extend_from_slice(self.line)?;
        made.push(b'\n')?;
        Ok(())
    }

    /// How many lines stand in its place where frames say nothing of this many pieces.
    fn blank_lines(&self, pieces: usize) -> usize {
        match self.due {
            None | Some(Due::Budget) => 1,
            Some(Due::Exit { results, .. }) => pieces.saturating_add(results).saturating_add(1),
            Some(Due::Label(_)) => pieces.saturating_add(2),
        }
    }
}

/// What the lines before one tell of it.
#[derive(Clone, Copy, Default)]
struct Heading {
    /// How many pieces the plan's first line tells of.
    pieces: usize,
    /// How many procedures and labels have begun.
    procedures: usize,
    labels: usize,
    /// The frame that is due next.
    due: Option<Due>,
}

impl Heading {
    /// What the next line is.
    fn part_of<'a>(&mut self, line: &'a [u8]) -> Part<'a>
        ensures own { result.line.now ≡ line.now }
        ensures due { (before : List (List ℕ)) → (IsSome self.old.due ↔ FrameIsDue before)
            → (IsSome result.due ↔ IsDueAfter before (line_of result)) × (IsSome self.new.due ↔ FrameIsDue (line_of result ∷ before)) }
    {
        Part {
            line,
            due: self.due_at(line),
        }
    }

    /// What is due where the next line ends by `auto`.
    fn due_at(&mut self, line: &[u8]) -> Option<Due>
        ensures { (before : List (List ℕ)) → (IsSome self.old.due ↔ FrameIsDue before)
            → (IsSome result ↔ IsDueAfter before line.now) × (IsSome self.new.due ↔ FrameIsDue (line.now ∷ before)) }
    {
        if line.is_empty() || line.starts_with(b";") {
            return None;
        }
        let due = self.due.take();
        self.due = self.opened_by(line);
        if line == AUTO {
            return due;
        }
        if line.starts_with(b"plan") && line.ends_with(b" auto") {
            return Some(Due::Budget);
        }
        None
    }

    /// The frame that is due after a line that opens one.
    fn opened_by(&mut self, line: &[u8]) -> Option<Due>
        ensures { IsSome result ↔ OpensFrame line.now }
    {
        let told = Line {
            number: 0,
            bytes: line,
        };
        if begins_by(line, b"proc") {
            let procedure = self.procedures;
            self.procedures = procedure.saturating_add(1);
            let results = usize::from(told.number_in(3));
            return Some(Due::Exit { procedure, results });
        }
        if begins_by(line, b"label") {
            let label = self.labels;
            self.labels = label.saturating_add(1);
            return Some(Due::Label(label));
        }
        if begins_by(line, b"plan") || begins_by(line, b"plan2") {
            self.pieces = usize::from(told.number_in(2));
        }
        None
    }
}

/// Whether a word is the first of a line.
fn begins_by(line: &[u8], word: &[u8]) -> bool
    ensures { IsTrue result ↔ BeginsBy word.now line.now }
{
    match line.strip_prefix(word) {
        Some(rest) => rest.is_empty() || rest[0] == b' ',
        None => false,
    }
}

/// A plan text in which `auto` may stand in place of the budget, of exit frames, and of the frames of
/// labels.
#[derive(Drop)]
pub struct Unframed<'a> {
    alloc: Global,
    text: &'a [u8],
    parts: Vec<Part<'a>>,
    /// What follows the last line feed.
    rest: &'a [u8],
    /// How many pieces its first line tells of.
    pieces: usize,
}

impl<'a> Model for Unframed<'a> {
    ghost use Rattle.std.specs.Prelude.{ℕ, List};
    ghost use Rattle.burr_lines.specs.Parts.{IsMadeOf};

    ghost Value = { List ℕ };

    ghost view = { λ u. u.text.now };

    ghost invariant = { λ u. IsMadeOf u.text.now u.parts.items u.rest.now };
}

impl<'a> Unframed<'a> {
    /// A plan text, with what is due in each of its lines.
    pub fn of(alloc: Global, text: &'a [u8]) -> Result<Unframed<'a>, AllocError>
        ensures { IfOk result (λ unframed. unframed ≡ text.now) }
    {
        let mut parts = Vec::new(alloc);
        let mut heading = Heading::default();
        let mut rest = text;
        while let Some((line, more)) = cut_at(rest, b'\n') {
            parts.push(heading.part_of(line))?;
            rest = more;
        }
        Ok(Unframed {
            alloc,
            text,
            parts,
            rest,
            pieces: heading.pieces,
        })
    }

    /// Its lines up to the last line feed.
    pub fn parts(&self) -> &[Part<'a>]
        ensures { (rest : List ℕ) × IsMadeOf self.now result.now rest }
    {
        &self.parts
    }

    /// Whether `auto` stands in the line of this number, counted from 1.
    pub fn has_auto_at(&self, number: usize) -> bool
        ensures { HasAutoAt self.now number result }
    {
        match self.parts.get(number.saturating_sub(1)) {
            Some(part) => part.due.is_some(),
            None => false,
        }
    }

    /// The text with these in place of its lines, one for each. A line stays where none is given, and
    /// where nothing is due.
    pub fn with(&self, fills: &[Option<String>]) -> Result<Vec<u8>, AllocError>
        ensures put { IfOk result (λ made. IsFilledBy self.now fills.now made.items) }
        ensures kept { IfOk result (λ made. IsFilledIn self.now made.items) }
    {
        let mut made = Vec::new(self.alloc);
        for (n, part) in self.parts.iter().enumerate() {
            part.add_to(fills.get(n), &mut made)?;
        }
        made.extend_from_slice(self.rest)?;
        Ok(made)
    }

    /// The text, with frames that say nothing and the greatest budget in place of `auto`.
    pub fn with_blanks(&self) -> Result<Vec<u8>, AllocError>
        ensures { IfOk result (λ made. IsFilledIn self.now made.items) }
    {
        let mut blanks = Vec::new(self.alloc);
        for part in &self.parts {
            blanks.push(self.blank_for(part)?)?;
        }
        self.with(&blanks)
    }

    /// The greatest budget, or the lines of a frame that says nothing; none where nothing is due.
    fn blank_for(&self, part: &Part<'_>) -> Result<Option<String>, AllocError> {
        let mut blank = Report::new(self.alloc);
        match part.due {
            None => return Ok(None),
            Some(Due::Budget) => {
                part.add_with_budget(i64::from(MOST_BUDGET), &mut blank);
                return Ok(Some(blank.into_text()?));
            }
            Some(Due::Exit { results, .. }) => {
                blank.add_words("exit 0 -\n");
                for _ in 0..results {
                    blank.add_words("result 0 0\n");
                }
            }
            Some(Due::Label(_)) => blank.add_words("frame 0 -\ncost 0\n"),
        }
        for piece in 0..self.pieces {
            blank.add_words(format_args!("at {piece} apart\n"));
        }
        Ok(Some(blank.into_text()?))
    }

    /// The parts of the plan of the text with blanks, each with the number of its line in the text itself.
    pub fn parts_of(&self, blank: &[u8]) -> Result<Vec<(PlanPart, usize)>, AllocError> {
        let own = self.own_lines()?;
        let mut parts = source_map(self.alloc, blank)?;
        for (_, number) in parts.iter_mut() {
            *number = own.get(number.saturating_sub(1)).copied().unwrap_or(0);
        }
        Ok(parts)
    }

    /// For each line of the text with blanks its number in the text itself.
    fn own_lines(&self) -> Result<Vec<usize>, AllocError> {
        let mut own = Vec::new(self.alloc);
        for (n, part) in self.parts.iter().enumerate() {
            for _ in 0..part.blank_lines(self.pieces) {
                own.push(n.saturating_add(1))?;
            }
        }
        Ok(own)
    }

    /// The number of a line of the text with blanks, in the text itself.
    pub fn own_line(&self, number: usize) -> usize {
        let mut own: usize = 1;
        let mut line: usize = 1;
        for part in &self.parts {
            line = line.saturating_add(part.blank_lines(self.pieces));
            if number < line {
                return own;
            }
            own = own.saturating_add(1);
        }
        own
    }
}
