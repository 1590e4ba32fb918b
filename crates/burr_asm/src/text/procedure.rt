ghost use Rattle.std.specs.Prelude.{◌≡◌, if◌then◌else◌, IfOk, MatchResult, None, Some};
ghost use Rattle.burr_asm.specs.Views.CodeParts.{code_of_all, code_refusal, first_unknown, numbered, with_statement};
ghost use Rattle.burr_asm.specs.Views.Faults.{IsRefusal, IsUnknown};
ghost use Rattle.burr_asm.specs.Views.LineWords.{code_words};
ghost use Rattle.burr_asm.specs.Views.Routines.{begun, ends_with_label, label_refusal};
ghost use Rattle.burr_asm.specs.Views.Routines.{procedure_of, with_frame, with_label};

use crate::fault::AsmFault;
use crate::text::code::CodeLine;
use crate::text::names::Names;
use crate::text::signature::Signature;
use crate::text::statement::Statement;
use burr_code::limits::{MOST_CODE, MOST_LABELS};
use burr_container::{ExitFrame, Frame, Procedure};
use std::alloc::{AllocError, Global};
use std::marker::Model;
use std::mem::replace;

/// A procedure as far as it has been read.
#[derive(Drop)]
pub struct Routine<'a> {
    signature: Signature,
    exit: Option<ExitFrame>,
    names: Names<'a>,
    labels: Vec<(u16, Frame)>,
    /// The line of the last label.
    last: usize,
    statements: Vec<Statement<'a>>,
    /// How many bytes the statements have: at most 4,096.
    size: usize,
}

impl<'a> Model for Routine<'a> {
    ghost use Rattle.std.specs.Prelude.{◌≤◌};
    ghost use Rattle.burr_code.specs.declared.limits.TheConstants.{MOST_CODE};
    ghost use Rattle.burr_asm.specs.Views.CodeParts.{numbered};
    ghost use Rattle.burr_asm.specs.Views.Routines.{RoutineParts};

    ghost Value = { RoutineParts };

    ghost view = { λ r.
        record {
          signature = r.signature;
          exit = r.exit;
          names = r.names;
          labels = r.labels.items;
          last = r.last;
          code = record { statements = numbered r.statements.items; size = r.size };
        } };

    ghost invariant = { λ r. r.size ≤ MOST_CODE };
}

impl<'a> Routine<'a> {
    /// A procedure whose first line has been read, and no other.
    pub fn new(alloc: Global, signature: Signature) -> Routine<'a>
        ensures { result ≡ begun signature }
    {
        Routine {
            signature,
            exit: None,
            names: Names::new(alloc),
            labels: Vec::new(alloc),
            last: 0,
            statements: Vec::new(alloc),
            size: 0,
        }
    }

    /// Takes out what has been read.
    pub fn take(&mut self, alloc: Global) -> Routine<'a>
        ensures { result ≡ self.old }
    {
        let signature = self.signature;
        replace(self, Routine::new(alloc, signature))
    }

    /// What it takes and gives.
    pub fn signature(&self) -> Signature
        ensures { result ≡ self.now.signature }
    {
        self.signature
    }

    /// Its exit frame.
    pub fn set_exit(&mut self, exit: ExitFrame)
        ensures { self.new ≡ record self.old { exit = Some exit } }
    {
        self.exit = Some(exit);
    }

    /// A line `label NAME`, whose frame is still to come.
    pub fn add_label(&mut self, name: &'a [u8], line: usize) -> Result<(), AsmFault>
        ensures { MatchResult result
            (λ _done. (label_refusal self.old name.now ≡ None)
            × (self.new ≡ with_label self.old name.now line))
            (IsRefusal (label_refusal self.old name.now) line) }
    {
        if self.names.number(name).is_some() {
            return Err(AsmFault::P2 { line });
        }
        if self.names.count() >= MOST_LABELS || self.ends_with_label() {
            return Err(AsmFault::P4 { line });
        }
        self.names.add(name)?;
        self.last = line;
        Ok(())
    }

    /// The frame of the label that has come last.
    pub fn add_frame(&mut self, frame: Frame) -> Result<(), AllocError>
        ensures { IfOk result (λ _done. self.new ≡ with_frame self.old frame) }
    {
        self.labels.push((self.size as u16, frame))?;
        Ok(())
    }

    /// One more line after its code, if it is in range and there is room.
    pub fn add_code(&mut self, code: CodeLine<'a>, line: usize) -> Result<(), AsmFault>
        ensures { let words = code_words code.entry in
            MatchResult result
            (λ _done. (code_refusal self.old.code words ≡ None)
            × (self.new ≡ record self.old { code = with_statement self.old.code line words }))
            (IsRefusal (code_refusal self.old.code words) line) }
    {
        let Some(size) = code.size() else {
            return Err(AsmFault::P3 { line });
        };
        if size > MOST_CODE - self.size {
            return Err(AsmFault::P4 { line });
        }
        self.statements.push(Statement { line, code })?;
        self.size += size;
        Ok(())
    }

    /// Whether the last label stands at the end of the code.
    fn ends_with_label(&self) -> bool
        ensures { result ≡ ends_with_label self.now }
    {
        match self.labels.last() {
            Some((position, _frame)) => usize::from(*position) == self.size,
            None => false,
        }
    }

    /// The line of the last label, where it stands at the end of the code: a fault, where the
    /// procedure ends there.
    pub fn label_at_end(&self) -> Option<usize>
        ensures { result ≡ if ends_with_label self.now then Some self.now.last else None }
    {
        self.ends_with_label().then_some(self.last)
    }

    /// The procedure, where all names in its code are known; else the fault of the first line in
    /// which one is not.
    pub fn resolve(self, alloc: Global, procedures: &Names<'_>) -> Result<Procedure, AsmFault>
        ensures { MatchResult result
            (λ procedure.
            (first_unknown self.entry.names procedures.now self.entry.code.statements ≡ None)
            × (procedure ≡ procedure_of self.entry procedures.now))
            (IsUnknown
            (first_unknown self.entry.names procedures.now self.entry.code.statements)) }
    {
        let code = encode_all(alloc, &self.statements, self.size, &self.names, procedures)?;
        Ok(Procedure {
            params: self.signature.parameters,
            results: self.signature.results,
            exit: self.exit,
            labels: self.labels,
            code,
        })
    }
}

/// The bytes of statements, `size` in all; else the fault of the first in which an unknown name stands.
fn encode_all(
    alloc: Global,
    statements: &[Statement<'_>],
    size: usize,
    labels: &Names<'_>,
    procedures: &Names<'_>,
) -> Result<Vec<u8>, AsmFault>
    ensures { let code = numbered statements.now in
        MatchResult result
        (λ bytes. (first_unknown labels.now procedures.now code ≡ None)
        × (bytes.items ≡ code_of_all labels.now procedures.now code))
        (IsUnknown (first_unknown labels.now procedures.now code)) }
{
    let mut code = Vec::with_capacity(alloc, size)?;
    for statement in statements {
        code.extend_from_slice(&statement.encode(alloc, labels, procedures)?)?;
    }
    Ok(code)
}
