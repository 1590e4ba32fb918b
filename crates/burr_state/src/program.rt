//! What a bench runs.

ghost use Rattle.std.specs.Prelude.{◌≡◌, ◌<◌, ◌≤◌, ◌↔◌, [], length, slice_get, IsTrue, MatchOption, None, Some, IfOk};
ghost use Rattle.burr_code.specs.declared.limits.TheConstants.{MOST_CODE, MOST_BUDGET};
ghost use Rattle.burr_container.specs.Rules.Plans.{Plan};
ghost use Rattle.burr_container.specs.Views.Containers.{IsContainer, OfProcedure};
ghost use Rattle.burr_state.specs.Rules.Bench.{bare_procedure, bare_program};
ghost use Rattle.burr_state.specs.Views.Programs.{HasLabels, bench_procedure, plan_program};

use arrayvec::ArrayVec;
use burr_code::Labels;
use burr_code::limits::{MOST_BUDGET, MOST_LABELS, MOST_PROCEDURES};
use burr_container::Container;
use std::alloc::{AllocError, Global};
use std::marker::Model;

/// A procedure: its parameters and results, the positions of its labels, and its code.
#[derive(Debug, Drop)]
pub struct Procedure<'a> {
    /// How many parameters it has, 0 to 4.
    pub(crate) parameters: u8,
    /// How many results it has, 0 to 2.
    pub(crate) results: u8,
    labels: ArrayVec<u16, MOST_LABELS>,
    code: &'a [u8],
}

impl<'a> Model for Procedure<'a> {
    ghost use Rattle.burr_state.specs.Rules.Bench.{BenchProcedure};
    ghost use Rattle.burr_state.specs.Views.Programs.{procedure_of, IsRunnable};

    ghost Value = { BenchProcedure };

    ghost view = { λ p. procedure_of p.parameters p.results p.labels.items p.code.now };

    ghost invariant = { λ p.
        IsRunnable (procedure_of p.parameters p.results p.labels.items p.code.now) };
}

impl<'a> Procedure<'a> {
    /// The procedure of bare code: no parameters, no results, no labels, and at most 4,096 bytes.
    pub fn bare(code: &'a [u8]) -> Procedure<'a>
        requires { length code.now ≤ MOST_CODE }
        ensures { result ≡ bare_procedure code.entry.now }
    {
        Procedure {
            parameters: 0,
            results: 0,
            labels: ArrayVec::new(),
            code,
        }
    }

    /// The procedure of a container with this number.
    fn of<'c: 'a>(container: &Container<'c>, number: usize) -> Procedure<'a>
        requires { number < length container.now.procedures }
        ensures { OfProcedure container.now number (λ p q. result ≡ bench_procedure q) }
    {
        let mut labels = ArrayVec::new();
        for label in 0..container.label_count(number) {
            labels.push(container.label(number, label));
        }
        Procedure {
            parameters: container.params(number),
            results: container.results(number),
            labels,
            code: container.code(number),
        }
    }

    /// Its code, at most 4,096 bytes.
    pub fn code(&self) -> &'a [u8]
        ensures code { result.now ≡ self.now.code }
        ensures short { length result.now ≤ MOST_CODE }
    {
        self.code
    }

    /// The position of a label; None where there is no such label.
    pub fn label(&self, label: u16) -> Option<u16>
        ensures { result ≡ slice_get self.now.labels label }
    {
        self.labels.get(usize::from(label)).copied()
    }

    /// Whether there are all labels of an offer.
    pub fn has_labels(&self, offer: &Labels<'_>) -> bool
        ensures { IsTrue result ↔ HasLabels self.now.labels offer.now }
    {
        for number in 0..offer.len() {
            if self.labels.len() <= usize::from(offer.get(number).unwrap()) {
                return false;
            }
        }
        true
    }
}

impl<'a> Default for Procedure<'a> {
    ghost is_default = { λ p. p ≡ bare_procedure [] };

    fn default() -> Procedure<'a> {
        Procedure::bare(&[])
    }
}

/// Procedures, main first, and the most steps that a run of them makes.
#[derive(Debug, Drop)]
pub struct Program<'a> {
    procedures: ArrayVec<Procedure<'a>, MOST_PROCEDURES>,
    budget: u32,
}

impl<'a> Model for Program<'a> {
    ghost use Rattle.std.specs.Prelude.{◌≤◌};
    ghost use Rattle.burr_code.specs.declared.limits.TheConstants.{MOST_BUDGET};
    ghost use Rattle.burr_state.specs.Rules.Bench.{Program as ProgramOf};
    ghost use Rattle.burr_state.specs.Views.Programs.{program_of};

    ghost Value = { ProgramOf };

    ghost view = { λ p. program_of p.procedures.items p.budget };

    ghost invariant = { λ p. p.budget ≤ MOST_BUDGET };
}

impl<'a> Program<'a> {
    /// Bare code of at most 4,096 bytes: one procedure without labels, and the greatest budget.
    pub fn bare(code: &'a [u8]) -> Program<'a>
        requires { length code.now ≤ MOST_CODE }
        ensures { result ≡ bare_program code.entry.now }
    {
        let mut procedures = ArrayVec::new();
        procedures.push(Procedure::bare(code));
        Program {
            procedures,
            budget: MOST_BUDGET,
        }
    }

    /// The program of a container: its procedures and its budget.
    pub fn of<'c: 'a>(container: &Container<'c>) -> Program<'a>
        ensures plan { (p : Plan) → IsContainer container.now p → result ≡ plan_program p }
        ensures some { 0 < length result.procedures }
    {
        let mut procedures = ArrayVec::new();
        for number in 0..container.proc_count() {
            procedures.push(Procedure::of(container, number));
        }
        Program {
            procedures,
            budget: container.header().budget,
        }
    }

    /// The most steps that a run makes.
    pub fn budget(&self) -> u32
        ensures budget { result ≡ self.now.budget }
        ensures few { result ≤ MOST_BUDGET }
    {
        self.budget
    }

    /// The procedure of a number; None where there is no such procedure. There are at most 16.
    pub fn procedure(&self, number: u8) -> Option<&Procedure<'a>>
        ensures found { MatchOption result (slice_get self.now.procedures number ≡ None)
            (λ p. slice_get self.now.procedures number ≡ Some p.now) }
        ensures few { length self.now.procedures ≤ 16 }
    {
        self.procedures.get(usize::from(number))
    }
}

// Programs that keep their code.

/// A procedure that keeps its code.
#[derive(Debug, Drop)]
struct OwnedProcedure {
    parameters: u8,
    results: u8,
    labels: ArrayVec<u16, MOST_LABELS>,
    code: Vec<u8>,
}

impl Model for OwnedProcedure {
    ghost use Rattle.burr_state.specs.Rules.Bench.{BenchProcedure};
    ghost use Rattle.burr_state.specs.Views.Programs.{procedure_of, IsRunnable};

    ghost Value = { BenchProcedure };

    ghost view = { λ p. procedure_of p.parameters p.results p.labels.items p.code.items };

    ghost invariant = { λ p.
        IsRunnable (procedure_of p.parameters p.results p.labels.items p.code.items) };
}

impl OwnedProcedure {
    /// The same procedure, which keeps its code.
    fn of(alloc: Global, procedure: &Procedure<'_>) -> Result<OwnedProcedure, AllocError>
        ensures { IfOk result (λ kept. kept ≡ procedure.now) }
    {
        Ok(OwnedProcedure {
            parameters: procedure.parameters,
            results: procedure.results,
            labels: ArrayVec::try_from(procedure.labels.as_slice()).unwrap(),
            code: procedure.code.to_vec(alloc)?,
        })
    }

    /// The same procedure, whose code is lent.
    fn lend(&self) -> Procedure<'_>
        ensures { result ≡ self.entry.now }
    {
        Procedure {
            parameters: self.parameters,
            results: self.results,
            labels: ArrayVec::try_from(self.labels.as_slice()).unwrap(),
            code: &self.code,
        }
    }
}

/// A program that keeps its code, and so borrows nothing.
#[derive(Debug, Drop)]
pub struct OwnedProgram {
    /// At most 16, main first.
    procedures: Vec<OwnedProcedure>,
    budget: u32,
}

impl Model for OwnedProgram {
    ghost use Rattle.std.specs.Prelude.{◌≤◌, length};
    ghost use Rattle.burr_code.specs.declared.limits.TheConstants.{MOST_BUDGET};
    ghost use Rattle.burr_state.specs.Rules.Bench.{Program as ProgramOf};
    ghost use Rattle.burr_state.specs.Views.Programs.{program_of};

    ghost Value = { ProgramOf };

    ghost view = { λ p. program_of p.procedures.items p.budget };

    ghost invariant = { λ p. (p.budget ≤ MOST_BUDGET) × (length p.procedures.items ≤ 16) };
}

impl OwnedProgram {
    /// The same program, which keeps its code.
    pub fn of(alloc: Global, program: &Program<'_>) -> Result<OwnedProgram, AllocError>
        ensures { IfOk result (λ kept. kept ≡ program.now) }
    {
        let mut procedures = Vec::new(alloc);
        for number in 0..program.procedures.len() {
            procedures.push(OwnedProcedure::of(alloc, &program.procedures[number])?)?;
        }
        Ok(OwnedProgram {
            procedures,
            budget: program.budget,
        })
    }

    /// The same program, whose code is lent.
    pub fn lend(&self) -> Program<'_>
        ensures { result ≡ self.entry.now }
    {
        let mut procedures = ArrayVec::new();
        for number in 0..self.procedures.len() {
            procedures.push(self.procedures[number].lend());
        }
        Program {
            procedures,
            budget: self.budget,
        }
    }
}
