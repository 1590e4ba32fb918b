ghost use Rattle.std.specs.Prelude.{◌≡◌, ◌≤◌, false, true, MatchOption, MatchResult, None};
ghost use Rattle.burr_plantext.specs.Rules.Checks.{title_check};
ghost use Rattle.burr_asm.specs.Views.Exits.{IsSignature};
ghost use Rattle.burr_asm.specs.Views.Faults.{IsRefusal, IsUnknown};
ghost use Rattle.burr_asm.specs.Views.LineWords.{plan_words, procedure_words};
ghost use Rattle.burr_asm.specs.Views.Routines.{are_counts, begun, ends_with_label};
ghost use Rattle.burr_asm.specs.Views.Routines.{head_refusal, plan_of_outline, procedures_of};
ghost use Rattle.burr_asm.specs.Views.Routines.{titled_outline, unknown_among, unknown_line};
ghost use Rattle.burr_asm.specs.Views.Routines.{with_name, with_routine, IsLabelAtEnd};

use crate::fault::AsmFault;
use crate::text::line::{PlanWords, ProcedureWords};
use crate::text::names::Names;
use crate::text::numbers::{FEWEST_PIECES, MOST_PIECES, budget, count_of, result_count, within};
use crate::text::procedure::Routine;
use crate::text::signature::Signature;
use burr_code::limits::{MOST_PARAMETERS, MOST_PROCEDURES};
use burr_container::{Plan, Procedure};
use std::alloc::Global;
use std::marker::Model;
use std::mem::replace;

/// A plan as far as it has been read: what its first line says, the names of all procedures that
/// have begun, and those that have ended.
#[derive(Drop)]
pub struct Outline<'a> {
    version: u16,
    name: &'a [u8],
    pieces: u8,
    budget: u32,
    names: Names<'a>,
    ended: Vec<Routine<'a>>,
}

impl<'a> Model for Outline<'a> {
    ghost use Rattle.std.specs.Prelude.{◌≤◌};
    ghost use Rattle.burr_asm.specs.Views.Routines.{OutlineParts};

    ghost Value = { OutlineParts };

    ghost view = { λ o.
        record {
          version = o.version;
          name = o.name.now;
          pieces = o.pieces;
          budget = o.budget;
          names = o.names;
          ended = o.ended.items;
        } };

    ghost invariant = { λ o. (2 ≤ o.pieces) × (o.pieces ≤ 32) };
}

impl<'a> Outline<'a> {
    /// A plan whose first line has been read, and no other.
    pub fn new(alloc: Global, words: PlanWords<'a>, line: usize) -> Result<Outline<'a>, AsmFault>
        ensures { MatchResult result
            (λ outline. (title_check (plan_words words.entry) ≡ None)
            × (outline ≡ titled_outline (plan_words words.entry)))
            (IsRefusal (title_check (plan_words words.entry)) line) }
    {
        match (
            within(words.pieces, FEWEST_PIECES, MOST_PIECES),
            budget(words.budget),
        ) {
            (Some(pieces), Some(budget)) => Ok(Outline {
                version: words.version,
                name: words.name,
                pieces,
                budget,
                names: Names::new(alloc),
                ended: Vec::new(alloc),
            }),
            _ => Err(AsmFault::P3 { line }),
        }
    }

    /// The version of the plan.
    pub fn version(&self) -> u16
        ensures { result ≡ self.now.version }
    {
        self.version
    }

    /// How many pieces the plan is for: 2 to 32.
    pub fn pieces(&self) -> u8
        ensures count { result ≡ self.now.pieces }
        ensures several { 2 ≤ result }
        ensures few { result ≤ 32 }
    {
        self.pieces
    }

    /// A line `proc`, of the plan's version, after procedures that have all ended.
    pub fn begin(
        &mut self,
        alloc: Global,
        words: ProcedureWords<'a>,
        line: usize,
    ) -> Result<Routine<'a>, AsmFault>
        ensures { MatchResult result
            (λ routine. (head_refusal self.old (procedure_words words.entry) ≡ None)
            × (routine ≡ begun routine.signature)
            × IsSignature routine.signature self.old.version (procedure_words words.entry)
            × (self.new ≡ with_name self.old words.entry.name.now))
            (IsRefusal (head_refusal self.old (procedure_words words.entry)) line) }
    {
        if self.names.number(words.name).is_some() {
            return Err(AsmFault::P2 { line });
        }
        let Some(signature) = self.signature(words) else {
            return Err(AsmFault::P3 { line });
        };
        if self.names.count() >= MOST_PROCEDURES {
            return Err(AsmFault::P4 { line });
        }
        self.names.add(words.name)?;
        Ok(Routine::new(alloc, signature))
    }

    /// What the next procedure takes and gives; None where a count is out of its range.
    fn signature(&self, words: ProcedureWords<'_>) -> Option<Signature>
        ensures { MatchOption result
            (are_counts self.now (procedure_words words.entry) ≡ false)
            (λ signature. (are_counts self.now (procedure_words words.entry) ≡ true)
            × IsSignature signature self.now.version (procedure_words words.entry)) }
    {
        let main = self.ended.is_empty();
        Some(Signature {
            version: self.version,
            parameters: count_of(words.parameters, main, MOST_PARAMETERS)?,
            results: result_count(words.results, main)?,
        })
    }

    /// The procedure that has begun last ends here, and is taken out.
    pub fn end(&mut self, alloc: Global, routine: &mut Routine<'a>) -> Result<(), AsmFault>
        ensures { MatchResult result
            (λ _done. (ends_with_label routine.old ≡ false)
            × (self.new ≡ with_routine self.old routine.old))
            (IsLabelAtEnd routine.old) }
    {
        if let Some(line) = routine.label_at_end() {
            return Err(AsmFault::P4 { line });
        }
        self.ended.push(routine.take(alloc))?;
        Ok(())
    }

    /// Takes out what has been read.
    pub fn take(&mut self, alloc: Global) -> Outline<'a>
        ensures { result ≡ self.old }
    {
        Outline {
            version: self.version,
            name: self.name,
            pieces: self.pieces,
            budget: self.budget,
            names: replace(&mut self.names, Names::new(alloc)),
            ended: replace(&mut self.ended, Vec::new(alloc)),
        }
    }

    /// The plan, where all names in its code are known; else the fault of the first line in which
    /// one is not.
    pub fn resolve(self, alloc: Global) -> Result<Plan, AsmFault>
        ensures { MatchResult result
            (λ plan. (unknown_line self.entry ≡ None) × (plan ≡ plan_of_outline self.entry))
            (IsUnknown (unknown_line self.entry)) }
    {
        let name = Vec::from_slice(alloc, self.name)?;
        let procs = resolved(alloc, self.ended, &self.names)?;
        Ok(Plan {
            version: self.version,
            name,
            pieces: self.pieces,
            budget: self.budget,
            procs,
        })
    }
}

/// The procedures that routines are.
fn resolved(
    alloc: Global,
    routines: Vec<Routine<'_>>,
    names: &Names<'_>,
) -> Result<Vec<Procedure>, AsmFault>
    ensures { MatchResult result
        (λ procedures. (unknown_among names.now routines.entry.items ≡ None)
        × (procedures.items ≡ procedures_of names.now routines.entry.items))
        (IsUnknown (unknown_among names.now routines.entry.items)) }
{
    let mut procedures = Vec::new(alloc);
    for routine in routines {
        procedures.push(routine.resolve(alloc, names)?)?;
    }
    Ok(procedures)
}
