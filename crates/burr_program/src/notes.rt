//! Notes for people below a refusal: the lines at fault, what was compared there, and what the refusal means.

ghost use Rattle.std.specs.Prelude.{◌≡◌, false, IfErr, IfOk};
ghost use Rattle.burr_asm.specs.Rules.Assembling.{IsAssembled};
ghost use Rattle.burr_assembly.specs.Rules.Text.{IsText};
ghost use Rattle.burr_container.specs.Views.Containers.{HasPlan};
ghost use Rattle.burr_runs.specs.Rules.Verdicts.{IsPassedBy, IsVerdictLine};
ghost use Rattle.burr_verify.specs.Rules.Accepting.{judged, IsAccepted};
ghost use Rattle.burr_judge.specs.Inputs.{RefusesPlanBytes};
ghost use Rattle.burr_judge.specs.PlanEnds.{TryEnds};
ghost use Rattle.burr_judge.specs.Stops.{Noted, Refuses, RefusesText};
ghost use Rattle.burr_program.specs.FileFaults.{AnyText};
ghost use Rattle.burr_judge.specs.declared.status.Status.TheVariants as statuses;

use crate::files::SourceFile;
use burr_asm::assemble;
use burr_assembly::Assembly;
use burr_blocking::{Blocking, RowTables};
use burr_container::Container;
use burr_explain::explanation_of;
use burr_io::VecSink;
use burr_judge::{Refused, Status, Stop, judge_plan, read_tables, try_plan};
use burr_lines::Unframed;
use burr_runs::Observer;
use burr_verify::{Accepted, Refusal};
use burr_why::{PlanText, expectation_of_line, reason_of_line, reason_of_refusal};
use std::alloc::{AllocError, Global};

impl<'x> SourceFile<'x> {
    ghost use Rattle.std.specs.Prelude.{◌≡◌};

    /// Returns the text as that of a plan, with its container and its assembly.
    pub fn beside<'c>(
        &'x self,
        container: &'x Container<'c>,
        assembly: &'x Assembly,
    ) -> PlanText<'x, 'c>
        ensures { result.container.now ≡ container.entry.now }
    {
        PlanText {
            file: self.name(),
            text: self.bytes(),
            container,
            assembly,
        }
    }
}

/// Reads the assembly's text of a file, and makes the tables of its assembly. A refusal has notes.
pub fn read_noted<'y>(
    alloc: Global,
    drawing: &SourceFile<'_>,
) -> Result<RowTables<'static>, Stop<'y>>
    ensures ok { IfOk result (λ tables.
        IsText drawing.now.bytes.items (⟦<RowTables<'static> as Blocking>⟧.subject tables)) }
    ensures err { IfErr result (Refuses (Noted (RefusesText drawing.now.bytes.items))) }
{
    match read_tables(alloc, drawing.bytes()) {
        Ok(tables) => Ok(tables),
        Err(stop) => {
            let notes = reason_of_text(alloc, &stop, drawing)?;
            Err(stop.with_notes(notes))
        }
    }
}

/// Assembles a plan text, which is that of a file but for its frames. A refusal has notes.
pub fn assemble_noted<'y>(
    alloc: Global,
    source: &SourceFile<'_>,
    text: &[u8],
) -> Result<Vec<u8>, Stop<'y>>
    ensures ok { IfOk result (λ bytes. IsAssembled text.now bytes.items) }
    ensures err { IfErr result (Refuses (Noted (RefusesPlanBytes text.now))) }
{
    match assemble(alloc, text) {
        Ok(bytes) => Ok(bytes),
        Err(fault) => {
            let stop = Stop::from(fault);
            let notes = reason_of_text(alloc, &stop, source)?;
            Err(stop.with_notes(notes))
        }
    }
}

/// Judges the container's plan of a file for the assembly of these tables. A refusal has notes.
pub fn judge_noted<'p, 'c: 'p, 'y, B: Blocking>(
    alloc: Global,
    source: &SourceFile<'_>,
    container: &'p Container<'c>,
    tables: &'p B,
) -> Result<(Accepted<'p, 'c, B>, u64), Stop<'y>>
    requires plan { HasPlan container.now }
    ensures ok { IfOk result (λ counted.
        counted.0.judged ≡ judged container.entry.now (B.subject tables.entry.now)) }
    ensures accepted { IfOk result (λ counted. IsAccepted counted.0.judged) }
    ensures passed { IfOk result (λ counted.
        IsPassedBy container.entry.now (B.subject tables.entry.now) counted.1) }
    ensures err { IfErr result (Refuses (Noted
        (IsVerdictLine container.entry.now (B.subject tables.entry.now) false))) }
{
    match judge_plan(container, tables) {
        Ok(counted) => Ok(counted),
        Err(stop) => {
            let plan = source.beside(container, tables.assembly());
            let notes = reason_of_stop(alloc, &stop, plan)?;
            Err(stop.with_notes(notes))
        }
    }
}

/// Runs a plan on the bench, and returns the sheet and the status. A refusal has notes.
#[inline(never)]
pub fn try_noted<'y, B: Blocking, O: Observer>(
    alloc: Global,
    plan: PlanText<'_, '_>,
    tables: &B,
    answers: &[u8],
    observer: &mut O,
) -> Result<(Status, Vec<u8>), Stop<'y>>
    ensures ok { IfOk result (λ tried.
        TryEnds plan.entry.container.now (B.subject tables.now) answers.now tried.1.items tried.0) }
    ensures err { IfErr result (Refuses (Noted (λ text. TryEnds plan.entry.container.now
        (B.subject tables.now) answers.now text statuses.Refused))) }
{
    let mut sheet = VecSink::new(alloc);
    match try_plan(alloc, plan.container, tables, answers, observer, &mut sheet) {
        Ok(status) => Ok((status, sheet.into_bytes())),
        Err(Stop::Fault(_)) => Err(Stop::from(AllocError)),
        Err(Stop::Refused(refused, before)) => {
            let stop = Stop::Refused(refused, before);
            let notes = reason_of_stop(alloc, &stop, plan)?;
            Err(stop.with_notes(notes))
        }
    }
}

/// Returns the refusal of a line of a file, as `refused sheet line 3`, with notes that say why.
pub fn refuse_line<'y>(
    alloc: Global,
    subject: &'y str,
    source: &SourceFile<'_>,
    line: usize,
    note: &str,
) -> Result<Stop<'y>, AllocError>
    ensures { IfOk result (Refuses AnyText) }
{
    let mut reason = reason_of_line(alloc, source.name(), source.bytes(), line)?;
    writeln!(reason, "    {note}")?;
    let notes = with_meaning(reason, subject)?;
    Ok(Stop::Refused(Refused::Line(subject, line), Some(notes)))
}

/// Returns why a text is refused; nothing for another stop.
fn reason_of_text(
    alloc: Global,
    stop: &Stop<'_>,
    source: &SourceFile<'_>,
) -> Result<String, AllocError> {
    match stop {
        Stop::Refused(Refused::Line(code, line), _) => reason_of_fault(alloc, source, code, *line),
        Stop::Refused(Refused::Overlap { line, .. }, _) => {
            reason_of_fault(alloc, source, "A8", *line)
        }
        _ => Ok(String::new(alloc)),
    }
}

/// Returns why a text is refused, by a fault of this code on this line: what was expected there in a plan
/// text, and of a line `auto` what that is for.
pub fn reason_of_fault(
    alloc: Global,
    source: &SourceFile<'_>,
    code: &str,
    line: usize,
) -> Result<String, AllocError> {
    let mut reason = reason_of_line(alloc, source.name(), source.bytes(), line)?;
    if code.starts_with('P') && Unframed::of(alloc, source.bytes())?.has_auto_at(line) {
        reason.push_str("    `auto` stands here until `burr frames` fills it in\n")?;
    } else {
        let expectation = expectation_of_line(alloc, source.name(), source.bytes(), code, line)?;
        reason.push_str(&expectation)?;
    }
    with_meaning(reason, code)
}

/// Returns why a plan is refused; nothing for another stop.
fn reason_of_stop(
    alloc: Global,
    stop: &Stop<'_>,
    plan: PlanText<'_, '_>,
) -> Result<String, AllocError> {
    match stop {
        Stop::Refused(Refused::Plan(refused), _) => reason_of_plan(alloc, plan, &refused.refusal),
        _ => Ok(String::new(alloc)),
    }
}

/// Returns why a plan is refused, and what the refusal means.
pub fn reason_of_plan(
    alloc: Global,
    plan: PlanText<'_, '_>,
    refusal: &Refusal,
) -> Result<String, AllocError> {
    let reason = reason_of_refusal(alloc, plan, refusal)?;
    let rule = refusal.rule;
    let key = format!(in alloc; "{rule}")?;
    with_meaning(reason, &key)
}

/// Returns a reason, and below it the first sentence of what a refusal of this name means.
pub fn with_meaning(mut reason: String, key: &str) -> Result<String, AllocError> {
    if let Some(known) = explanation_of(key.as_bytes()) {
        push_sentence(&mut reason, known.meaning)?;
    }
    reason.push_str("`burr explain ")?;
    reason.push_str(key)?;
    reason.push_str("` says more\n")?;
    Ok(reason)
}

/// Adds the first sentence of a meaning, as lines.
fn push_sentence(text: &mut String, meaning: &str) -> Result<(), AllocError> {
    for line in meaning.lines() {
        if let Some((sentence, _)) = line.split_once(". ") {
            text.push_str(sentence)?;
            return text.push_str(".\n");
        }
        text.push_str(line)?;
        text.push_str("\n")?;
        if line.ends_with('.') {
            return Ok(());
        }
    }
    Ok(())
}
