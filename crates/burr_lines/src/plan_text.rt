//! A plan text beside the container that it is assembled to.

use crate::lines::Line;
use burr_assembly::Assembly;
use burr_code::limits::MOST_LABELS;
use burr_code::{Instr, fetch};
use burr_container::{Container, ExitRef, FrameRef, ProcedureRef};
use burr_voxels::Cell;
use std::alloc::{AllocError, Global};
use std::fmt;

/// A plan text, the container that it is assembled to, and the assembly that it was judged for.
#[derive(Clone, Copy)]
pub struct PlanText<'a, 'c> {
    /// The name of the file, as it was given.
    pub file: &'a str,
    pub text: &'a [u8],
    pub container: &'a Container<'c>,
    pub assembly: &'a Assembly,
}

impl<'a, 'c> PlanText<'a, 'c> {
    /// The name of a piece; nothing where there is no such piece.
    pub fn piece_name(&self, piece: u8) -> &'a str {
        if self.assembly.piece_count() <= piece {
            return "";
        }
        self.assembly.piece_name(piece)
    }

    /// The cells of a piece at home; none where there is no such piece.
    pub fn cells(&self, piece: u8) -> &'a [Cell] {
        if self.assembly.piece_count() <= piece {
            return &[];
        }
        self.assembly.cells(piece)
    }

    /// A procedure; none where there is no such procedure.
    pub fn procedure(&self, procedure: usize) -> Option<ProcedureRef<'a, 'c>> {
        if self.container.proc_count() <= procedure {
            return None;
        }
        Some(self.container.procedure(procedure))
    }

    /// How many parameters a procedure has; 0 where there is no such procedure.
    pub fn parameters(&self, procedure: usize) -> u8 {
        match self.procedure(procedure) {
            Some(procedure) => procedure.params(),
            None => 0,
        }
    }

    /// The exit frame of a procedure; none of main, and where there is no such procedure.
    pub fn exit(&self, procedure: usize) -> Option<ExitRef<'c>> {
        self.procedure(procedure)?.exit()
    }

    /// The position of a label in its procedure's code; none where there is no such label.
    pub fn position(&self, procedure: usize, label: usize) -> Option<usize> {
        let procedure = self.procedure(procedure)?;
        if procedure.label_count() <= label {
            return None;
        }
        Some(usize::from(procedure.label(label)))
    }

    /// The frame of a label; none where there is no such label.
    pub fn frame(&self, procedure: usize, label: usize) -> Option<FrameRef<'c>> {
        let procedure = self.procedure(procedure)?;
        if procedure.label_count() <= label {
            return None;
        }
        Some(procedure.frame(label))
    }

    /// The last label of a procedure at a place of its code or before it; None where there is no
    /// such label.
    pub fn label_before(&self, procedure: usize, pc: usize) -> Option<usize> {
        let mut last = None;
        for label in 0..MOST_LABELS {
            match self.position(procedure, label) {
                Some(position) if position <= pc => last = Some(label),
                _ => {}
            }
        }
        last
    }

    /// The label of a procedure at a place of its code; None where no label stands there.
    pub fn label_at(&self, procedure: usize, pc: usize) -> Option<usize> {
        let label = self.label_before(procedure, pc)?;
        if self.position(procedure, label)? == pc {
            return Some(label);
        }
        None
    }

    /// The instruction at a place of a procedure's code; none where none stands there.
    pub fn instruction_at(&self, procedure: usize, pc: usize) -> Option<Instr<'c>> {
        let (instruction, _size) = fetch(self.procedure(procedure)?.code(), pc)?;
        Some(instruction)
    }
}

// Texts about lines.

/// Lines that are named, each with notes below it. Once memory was wanting it is no text any more,
/// which is told at its end.
#[derive(Drop)]
pub struct Report {
    text: String,
    is_whole: bool,
}

impl Report {
    /// Nothing yet.
    pub fn new(alloc: Global) -> Report {
        Report {
            text: String::new(alloc),
            is_whole: true,
        }
    }

    /// Names a line of a file, as `cup.plan:38: jump L`.
    pub fn add_line(&mut self, file: &str, line: &Line<'_>) {
        let number = line.number;
        let shown = Shown(line.bytes);
        self.add_words(format_args!("{file}:{number}: {shown}\n"));
    }

    /// Notes something of the line that was named last.
    pub fn add_note<D: fmt::Display + Drop>(&mut self, note: D) {
        self.add_words(format_args!("    {note}\n"));
    }

    /// Adds words as they stand.
    pub fn add_words<D: fmt::Display + Drop>(&mut self, words: D) {
        if write!(self.text, "{words}").is_err() {
            self.is_whole = false;
        }
    }

    /// Whether nothing was added.
    pub fn is_empty(&self) -> bool {
        self.text.is_empty()
    }

    /// The text, if memory was never wanting.
    pub fn into_text(self) -> Result<String, AllocError> {
        if self.is_whole {
            return Ok(self.text);
        }
        Err(AllocError)
    }
}

/// Bytes of a text that somebody else wrote, with a mark in place of each that is no printable one.
#[derive(Clone, Copy, Drop)]
pub struct Shown<'a>(pub &'a [u8]);

impl fmt::Display for Shown<'_> {
    fn fmt<W: fmt::Write>(&self, f: &mut fmt::Formatter<W>) -> fmt::Result {
        for byte in self.0 {
            let printed = printed(*byte);
            write!(f, "{printed}")?;
        }
        Ok(())
    }
}

/// How a byte is shown.
fn printed(byte: u8) -> char {
    if b' ' <= byte && byte <= b'~' {
        return char::from(byte);
    }
    '?'
}
