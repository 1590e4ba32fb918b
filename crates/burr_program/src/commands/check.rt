ghost use Rattle.std.specs.Prelude.{◌∷◌, []};
ghost use Rattle.burr_judge.specs.PlanEnds.{never};
ghost use Rattle.burr_program.specs.Commands.{CheckCommand, CheckDone, CommandResult};
ghost use Rattle.burr_program.specs.FileFaults.{CannotRead};

use crate::done::Done;
use crate::files::read_file;
use burr_io::Sink;
use burr_judge::{Stop, Task, judge_text};
use std::rt::Files;

/// Judges a container's plan for an assembly, and prints the verdict.
#[inline(never)]
pub fn check<'a, F: Files + AllocGlobal, W: Sink>(
    files: &F,
    assembly: &'a str,
    plan: &'a str,
    sink: &mut W,
) -> Result<Done<'a>, Stop<'a>>
    ensures { CommandResult W.Sink sink.old sink.new (CheckDone assembly.entry.now plan.entry.now)
        CheckCommand (CannotRead (assembly.entry.now ∷ plan.entry.now ∷ [])) never result }
{
    let drawing = read_file(files, assembly)?;
    let source = read_file(files, plan)?;
    let status = judge_text(
        files.alloc(),
        Task::Check,
        drawing.bytes(),
        source.bytes(),
        &[],
        sink,
    )?;
    Ok(Done {
        status,
        assembly: Some(drawing),
        source: Some(source),
        written: None,
    })
}
