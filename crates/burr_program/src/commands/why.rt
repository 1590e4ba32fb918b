ghost use Rattle.std.specs.Prelude.{◌∷◌, []};
ghost use Rattle.burr_judge.specs.PlanEnds.{never};
ghost use Rattle.burr_judge.specs.Stops.{ResultOn};
ghost use Rattle.burr_judge.specs.declared.tasks.Task.TheVariants as tasks;
ghost use Rattle.burr_program.specs.Commands.{CommandResult, WhyCommand, WhyDone};
ghost use Rattle.burr_program.specs.FileFaults.{CannotRead};
ghost use Rattle.burr_program.specs.NotedEnds.{NotedEnds};

use crate::done::Done;
use crate::files::{SourceFile, read_file};
use crate::notes::{assemble_noted, judge_noted, read_noted};
use burr_container::Container;
use burr_io::Sink;
use burr_judge::{Status, Stop};
use burr_runs::put_accepted;
use std::alloc::Global;
use std::rt::Files;

/// Judges a plan text for an assembly, and prints the verdict. A refusal has notes that say why.
#[inline(never)]
pub fn why<'a, F: Files + AllocGlobal, W: Sink>(
    files: &F,
    assembly: &'a str,
    text: &'a str,
    sink: &mut W,
) -> Result<Done<'a>, Stop<'a>>
    ensures { CommandResult W.Sink sink.old sink.new (WhyDone assembly.entry.now text.entry.now)
        WhyCommand (CannotRead (assembly.entry.now ∷ text.entry.now ∷ [])) never result }
{
    let drawing = read_file(files, assembly)?;
    let source = read_file(files, text)?;
    let status = judge(files.alloc(), &drawing, &source, sink)?;
    Ok(Done {
        status,
        assembly: Some(drawing),
        source: Some(source),
        written: None,
    })
}

/// Judges the plan text for the assembly.
#[inline(never)]
fn judge<'a, W: Sink>(
    alloc: Global,
    drawing: &SourceFile<'_>,
    source: &SourceFile<'_>,
    sink: &mut W,
) -> Result<Status, Stop<'a>>
    ensures { ResultOn W.Sink sink.old sink.new
        (NotedEnds tasks.Check drawing.now.bytes.items source.now.bytes.items []) never result }
{
    let tables = read_noted(alloc, drawing)?;
    let bytes = assemble_noted(alloc, source, source.bytes())?;
    let container = Container::parse(&bytes)?;
    let (accepted, looks) = judge_noted(alloc, source, &container, &tables)?;
    put_accepted(accepted.cost(), container.header().budget, looks, sink)?;
    Ok(Status::Done)
}
