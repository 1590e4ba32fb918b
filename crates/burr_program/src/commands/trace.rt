ghost use Rattle.std.specs.Prelude.{◌≡◌, ◌∷◌, [], IfErr, IfOk, codes};
ghost use Rattle.burr_judge.specs.PlanEnds.{TryEnds, never};
ghost use Rattle.burr_judge.specs.StepEnds.{left_by};
ghost use Rattle.burr_judge.specs.Stops.{IsFault, Noted, Refuses, ResultOn};
ghost use Rattle.burr_judge.specs.declared.status.Status.TheVariants as statuses;
ghost use Rattle.burr_lines.specs.FilledTexts.{IsFilledIn};
ghost use Rattle.burr_program.specs.Commands.{CommandResult, TraceCommand, TraceDone};
ghost use Rattle.burr_program.specs.FileFaults.{CannotRead};
ghost use Rattle.burr_program.specs.NotedEnds.{TracedEnds};

use crate::done::Done;
use crate::files::{SourceFile, read_file};
use crate::notes::{assemble_noted, read_noted, try_noted};
use burr_asm::{AsmFault, assemble};
use burr_blocking::Blocking;
use burr_container::Container;
use burr_io::{Sink, Source, put_all};
use burr_judge::{Status, Stop};
use burr_lines::Unframed;
use burr_runs::read_whole;
use burr_trace::{Arrivals, Labels, trace_of};
use std::alloc::Global;
use std::rt::Files;

/// Runs a plan text for an assembly with the answers of a source, and prints the sheet, and below it what
/// holds at each label. `auto` may stand in place of frames.
#[inline(never)]
pub fn trace<'a, F: Files + AllocGlobal, R: Source, W: Sink>(
    files: &F,
    assembly: &'a str,
    text: &'a str,
    answers: &mut R,
    sink: &mut W,
) -> Result<Done<'a>, Stop<'a>>
    ensures { CommandResult W.Sink sink.old sink.new
        (TraceDone (left_by R.Source answers.old answers.new) assembly.entry.now text.entry.now)
        (TraceCommand (left_by R.Source answers.old answers.new))
        (CannotRead (assembly.entry.now ∷ text.entry.now ∷ codes "-" ∷ [])) never result }
{
    let drawing = read_file(files, assembly)?;
    let source = read_file(files, text)?;
    let answers = read_whole(files.alloc(), answers)?;
    let status = run(files.alloc(), &drawing, &source, &answers, sink)?;
    Ok(Done {
        status,
        assembly: Some(drawing),
        source: Some(source),
        written: None,
    })
}

/// Runs the plan text.
#[inline(never)]
fn run<'a, W: Sink>(
    alloc: Global,
    drawing: &SourceFile<'_>,
    source: &SourceFile<'_>,
    answers: &[u8],
    sink: &mut W,
) -> Result<Status, Stop<'a>>
    ensures { ResultOn W.Sink sink.old sink.new (TracedEnds drawing.now.bytes.items
        source.now.bytes.items answers.now) never result }
{
    let unframed = Unframed::of(alloc, source.bytes())?;
    let framed = framed_text(alloc, &unframed, source.bytes())?;
    let tables = read_noted(alloc, drawing)?;
    let bytes = assemble_noted(alloc, source, &framed)?;
    let container = Container::parse(&bytes)?;
    let (status, sheet, notes) = try_labels(
        alloc, source, &container, &tables, &unframed, &framed, answers,
    )?;
    put_all(&sheet, sink)?;
    put_all(notes.as_bytes(), sink)?;
    Ok(status)
}

/// Runs the container's plan of a file. Returns the status, the sheet, and notes of what holds at each label.
fn try_labels<'y, B: Blocking>(
    alloc: Global,
    source: &SourceFile<'_>,
    container: &Container<'_>,
    tables: &B,
    unframed: &Unframed<'_>,
    framed: &[u8],
    answers: &[u8],
) -> Result<(Status, Vec<u8>, String), Stop<'y>>
    ensures ok { IfOk result (λ tried.
        TryEnds container.now (B.subject tables.now) answers.now tried.1.items tried.0) }
    ensures err { IfErr result (Refuses (Noted (λ text.
        TryEnds container.now (B.subject tables.now) answers.now text statuses.Refused))) }
{
    let plan = source.beside(container, tables.assembly());
    let labels = Labels::of(alloc, plan, unframed, framed)?;
    let mut arrivals = Arrivals::new(alloc, &labels);
    let (status, sheet) = try_noted(alloc, plan, tables, answers, &mut arrivals)?;
    let notes = trace_of(alloc, plan.file, arrivals)?;
    Ok((status, sheet, notes))
}

/// Returns a plan text with frames that say nothing in place of `auto`, if it is assembled so; else the text.
fn framed_text<'a>(alloc: Global, unframed: &Unframed<'_>, text: &[u8]) -> Result<Vec<u8>, Stop<'a>>
    requires { unframed.now ≡ text.now }
    ensures ok { IfOk result (λ framed. IsFilledIn text.now framed.items) }
    ensures err { IfErr result (IsFault (codes "no memory\n")) }
{
    let blank = unframed.with_blanks()?;
    match assemble(alloc, &blank) {
        Ok(_) => Ok(blank),
        Err(AsmFault::Memory) => Err(Stop::from(AsmFault::Memory)),
        Err(_) => Ok(Vec::from_slice(alloc, text)?),
    }
}
