//! On which line of a plan text each part of the plan stands.

ghost use Rattle.std.specs.Prelude.{◌≡◌, ◌≤◌, ◌^◌, IfOk, MatchOption, None, Some, pred};
ghost use Rattle.burr_code.specs.declared.limits.TheConstants.{MOST_CODE};
ghost use Rattle.burr_plantext.specs.Rules.Texts.{ended_line};
ghost use Rattle.burr_asm.specs.Rules.SourceMaps.{IsSourceMap};
ghost use Rattle.burr_asm.specs.Views.LineWords.{code_words, line_words};
ghost use Rattle.burr_asm.specs.Views.SourceMaps.{at_start, next_part, part_read, with_code};
ghost use Rattle.burr_asm.specs.Views.SourceMaps.{with_label, with_procedure, with_row, IsWithin};

use crate::text::{CodeLine, LineForm, is_skipped};
use burr_code::limits::MOST_CODE;
use burr_text::cut_at;
use std::alloc::{AllocError, Global};

/// A part of a plan that has a line of its own in the plan's text. Procedures, the labels of each and the
/// lines of a frame are told by their numbers, from 0, and lines of code by the place where their bytes
/// begin.
#[derive(Clone, Copy, PartialEq, Eq, Drop)]
pub enum PlanPart {
    Plan,
    Procedure(usize),
    /// A line of a procedure's exit frame.
    Exit {
        procedure: usize,
        row: usize,
    },
    Label {
        procedure: usize,
        label: usize,
    },
    /// A line of a label's frame.
    Frame {
        procedure: usize,
        label: usize,
        row: usize,
    },
    Code {
        procedure: usize,
        pc: usize,
    },
}

/// The parts of the plan that a text stands for, in the order of the text, each with the number of its
/// line, from 1. Of another text nothing is told.
pub fn source_map(alloc: Global, text: &[u8]) -> Result<Vec<(PlanPart, usize)>, AllocError>
    ensures { IfOk result (λ found. IsSourceMap text.now found.items) }
{
    let mut found = Vec::new(alloc);
    let mut cursor = Cursor::new();
    let mut rest = text;
    let mut line = 1;
    while let Some((bytes, more)) = cut_at(rest, b'\n') {
        if !is_skipped(bytes) {
            let Some(part) = cursor.read(bytes) else {
                return Ok(found);
            };
            found.push((part, line))?;
        }
        rest = more;
        line += 1;
    }
    Ok(found)
}

/// How far a plan's text was gone over, line by line, which decides what the next line is.
#[derive(Clone, Copy)]
struct Cursor {
    /// How many procedures have begun.
    procedures: usize,
    /// How many labels of the last procedure have begun.
    labels: usize,
    /// How many lines of the last frame stand before.
    rows: usize,
    /// How many bytes of the last procedure's code stand before.
    pc: usize,
}

impl Cursor {
    /// Before the first line.
    fn new() -> Cursor
        ensures { result ≡ at_start }
    {
        Cursor {
            procedures: 0,
            labels: 0,
            rows: 0,
            pc: 0,
        }
    }

    /// The part that one more line is, which is given without its end; None where it is of no form, has a
    /// number or a set out of its range, or would be more code than a procedure may have.
    fn read(&mut self, bytes: &[u8]) -> Option<PlanPart>
        requires { IsWithin self.old (2 ^ 63) }
        ensures { let given = part_read self.old (ended_line bytes.now) in
            MatchOption result (given ≡ None) (λ part. given ≡ Some (part, self.new)) }
    {
        self.add(LineForm::parse(bytes)?)
    }

    /// The part that one more line of this form is.
    fn add(&mut self, form: LineForm<'_>) -> Option<PlanPart>
        requires { IsWithin self.old (2 ^ 63) }
        ensures { let given = next_part self.old (line_words form.entry) in
            MatchOption result (given ≡ None) (λ part. given ≡ Some (part, self.new)) }
    {
        match form {
            LineForm::Plan(_) => Some(PlanPart::Plan),
            LineForm::Procedure(_) => Some(self.begin_procedure()),
            LineForm::Label(_) => Some(self.begin_label()),
            LineForm::Code(code) => self.add_code(code),
            LineForm::Exit(_)
            | LineForm::Result(_)
            | LineForm::Frame(_)
            | LineForm::Slot(_)
            | LineForm::Guard(_)
            | LineForm::Stack(_)
            | LineForm::Cost(_)
            | LineForm::At(_) => Some(self.add_row()),
        }
    }

    /// The line of a procedure.
    fn begin_procedure(&mut self) -> PlanPart
        requires { IsWithin self.old (2 ^ 63) }
        ensures { (result, self.new) ≡ with_procedure self.old }
    {
        let procedure = self.procedures;
        *self = Cursor {
            procedures: procedure + 1,
            ..Cursor::new()
        };
        PlanPart::Procedure(procedure)
    }

    /// The line of a label.
    fn begin_label(&mut self) -> PlanPart
        requires { IsWithin self.old (2 ^ 63) }
        ensures { (result, self.new) ≡ with_label self.old }
    {
        let label = self.labels;
        self.labels = label + 1;
        self.rows = 0;
        PlanPart::Label {
            procedure: self.procedure(),
            label,
        }
    }

    /// A line of the last label's frame, or of the exit frame before the first label.
    fn add_row(&mut self) -> PlanPart
        requires { IsWithin self.old (2 ^ 63) }
        ensures { (result, self.new) ≡ with_row self.old }
    {
        let row = self.rows;
        self.rows = row + 1;
        let procedure = self.procedure();
        match self.labels.checked_sub(1) {
            None => PlanPart::Exit { procedure, row },
            Some(label) => PlanPart::Frame {
                procedure,
                label,
                row,
            },
        }
    }

    /// A line of code; None where it is out of range, or there is no room for it.
    fn add_code(&mut self, line: CodeLine<'_>) -> Option<PlanPart>
        requires { self.old.pc ≤ MOST_CODE }
        ensures { let given = with_code self.old (code_words line.entry) in
            MatchOption result (given ≡ None) (λ part. given ≡ Some (part, self.new)) }
    {
        let pc = self.pc;
        let size = line.size()?;
        if size > MOST_CODE - pc {
            return None;
        }
        self.pc = pc + size;
        Some(PlanPart::Code {
            procedure: self.procedure(),
            pc,
        })
    }

    /// The number of the procedure that has begun last.
    fn procedure(&self) -> usize
        ensures { result ≡ pred self.now.procedures }
    {
        self.procedures.saturating_sub(1)
    }
}
