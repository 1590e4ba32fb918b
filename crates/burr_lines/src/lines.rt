//! The lines of a plan text, each with what it says.

ghost use Rattle.std.specs.Prelude.{◌≡◌, ◌-◌, [], IfOk, IfSome, get_or, map, option_map, slice_get};
ghost use Rattle.std.specs.List.{enumerate_from};
ghost use Rattle.burr_lines.specs.TextLines.{TellsNumber, bytes_of, text_lines, told, words_of};

use burr_asm::{PlanPart, source_map};
use burr_text::{cut_at, integer};
use std::alloc::{AllocError, Global};

/// What a line of a frame or of an exit frame tells.
#[derive(Clone, Copy, PartialEq, Eq)]
pub enum FramePart {
    /// The current tray and the grip.
    Head,
    Slot(u8),
    Result(u8),
    Guard(u8),
    /// An operand, counted from the bottom.
    Operand(u8),
    Cost,
    Piece(u8),
}

/// A frame of a plan: that of a label or, where none is told, the exit frame of the procedure.
#[derive(Clone, Copy)]
pub struct PlanFrame {
    pub procedure: usize,
    pub label: Option<usize>,
}

impl PlanFrame {
    /// The frame of a label.
    pub fn of_label(procedure: usize, label: usize) -> PlanFrame {
        let label = Some(label);
        PlanFrame { procedure, label }
    }

    /// The exit frame of a procedure.
    pub fn at_exit(procedure: usize) -> PlanFrame {
        let label = None;
        PlanFrame { procedure, label }
    }

    /// Whether a part of the plan is a line of this frame.
    fn has(&self, part: PlanPart) -> bool {
        let (procedure, label) = match part {
            PlanPart::Exit { procedure, .. } => (procedure, None),
            PlanPart::Frame {
                procedure,
                label,
                ..
            } => (procedure, Some(label)),
            _ => return false,
        };
        procedure == self.procedure && label == self.label
    }

    /// The first word of the lines of such a part, and which of them it is: by the slot that it names, or
    /// else counted from 0.
    fn word_of(&self, part: FramePart) -> (&'static str, u8) {
        match part {
            FramePart::Head if self.label.is_some() => ("frame", 0),
            FramePart::Head => ("exit", 0),
            FramePart::Slot(v) => ("slot", v),
            FramePart::Result(n) => ("result", n),
            FramePart::Guard(n) => ("guard", n),
            FramePart::Operand(n) => ("stack", n),
            FramePart::Cost => ("cost", 0),
            FramePart::Piece(n) => ("at", n),
        }
    }
}

/// A line: its number, counted from 1, and its bytes without the line feed.
#[derive(Clone, Copy)]
pub struct Line<'a> {
    pub number: usize,
    pub bytes: &'a [u8],
}

impl<'a> Line<'a> {
    /// A word, counted from 0; nothing where there are fewer.
    pub fn word(&self, place: usize) -> &'a [u8]
        ensures { result.now ≡ get_or (words_of self.now.bytes.now) place [] }
    {
        let mut rest = self.bytes;
        for _ in 0..place {
            match cut_at(rest, b' ') {
                Some((_, after)) => rest = after,
                None => return b"",
            }
        }
        match cut_at(rest, b' ') {
            Some((word, _)) => word,
            None => rest,
        }
    }

    /// The number that a word tells; 0 where it tells none of 0 to 255.
    pub fn number_in(&self, place: usize) -> u8
        ensures { TellsNumber (get_or (words_of self.now.bytes.now) place []) result }
    {
        let number = integer(self.word(place)).unwrap_or(0);
        u8::try_from(number).unwrap_or(0)
    }
}

/// The lines of a text. What follows the last line feed is one too, where something does.
pub fn lines_of(alloc: Global, text: &[u8]) -> Result<Vec<Line<'_>>, AllocError>
    ensures { IfOk result (λ lines. map told lines.items ≡ enumerate_from 1 (text_lines text.now)) }
{
    let mut lines = Vec::new(alloc);
    let mut rest = text;
    let mut number: usize = 1;
    while let Some((bytes, more)) = cut_at(rest, b'\n') {
        lines.push(Line { number, bytes })?;
        number = number.saturating_add(1);
        rest = more;
    }
    if rest.is_empty() {
        return Ok(lines);
    }
    let bytes = rest;
    lines.push(Line { number, bytes })?;
    Ok(lines)
}

/// The line of this number, counted from 1; none where the text ends before it.
pub fn numbered_line(text: &[u8], number: usize) -> Option<Line<'_>>
    ensures bytes { option_map bytes_of result ≡ slice_get (text_lines text.now) (number - 1) }
    ensures number { IfSome result (λ line. line.number ≡ number) }
{
    let mut rest = text;
    for _ in 1..number {
        match cut_at(rest, b'\n') {
            Some((_, more)) => rest = more,
            None => return None,
        }
    }
    match cut_at(rest, b'\n') {
        Some((bytes, _)) => Some(Line { number, bytes }),
        None if rest.is_empty() => None,
        None => Some(Line {
            number,
            bytes: rest,
        }),
    }
}

/// The lines of a plan text that is assembled to a container, by what they say.
#[derive(Drop)]
pub struct PlanLines<'a> {
    lines: Vec<Line<'a>>,
    /// Each part of the plan, with the number of its line, from 1.
    parts: Vec<(PlanPart, usize)>,
}

impl<'a> PlanLines<'a> {
    /// The lines of a text that is assembled as it stands, and what they say.
    pub fn of(alloc: Global, text: &'a [u8]) -> Result<PlanLines<'a>, AllocError> {
        PlanLines::with(alloc, text, source_map(alloc, text)?)
    }

    /// The lines of a text, where the parts of the plan stand on the lines of these numbers.
    pub fn with(
        alloc: Global,
        text: &'a [u8],
        parts: Vec<(PlanPart, usize)>,
    ) -> Result<PlanLines<'a>, AllocError> {
        let lines = lines_of(alloc, text)?;
        Ok(PlanLines { lines, parts })
    }

    /// The parts of the plan in their order, each with the number of its line.
    pub fn parts(&self) -> &[(PlanPart, usize)] {
        &self.parts
    }

    /// The line of a number, counted from 1; an empty one where there is no such line.
    pub fn line(&self, number: usize) -> Line<'a> {
        let line = self.lines.get(number.saturating_sub(1));
        line.copied().unwrap_or(Line { number, bytes: b"" })
    }

    /// The line of this part of the plan; None where it has none.
    pub fn line_of(&self, part: PlanPart) -> Option<Line<'a>> {
        let (_, number) = self.parts.iter().find(|(other, _)| *other == part)?;
        Some(self.line(*number))
    }

    /// The line of a part of a frame; None where it has none.
    pub fn line_in(&self, frame: PlanFrame, part: FramePart) -> Option<Line<'a>> {
        let (word, wanted) = frame.word_of(part);
        let mut place: u8 = 0;
        for (other, number) in &self.parts {
            let line = self.line(*number);
            if frame.has(*other) && line.word(0) == word.as_bytes() {
                let number = match part {
                    FramePart::Slot(_) => line.number_in(1),
                    _ => place,
                };
                if number == wanted {
                    return Some(line);
                }
                place = place.saturating_add(1);
            }
        }
        None
    }

    /// The name that stands in the line of this part of the plan; nothing where it has none.
    pub fn name_of(&self, part: PlanPart) -> &'a [u8] {
        match self.line_of(part) {
            Some(line) => line.word(1),
            None => b"",
        }
    }
}
