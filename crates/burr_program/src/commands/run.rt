ghost use Rattle.std.specs.Prelude.{◌∷◌, [], codes};
ghost use Rattle.burr_judge.specs.PlanEnds.{never};
ghost use Rattle.burr_judge.specs.StepEnds.{left_by};
ghost use Rattle.burr_program.specs.Commands.{AnsweredCommand, AnsweredDone, CommandResult};
ghost use Rattle.burr_program.specs.FileFaults.{CannotRead};

use crate::done::Done;
use crate::files::read_file;
use burr_io::{Sink, Source};
use burr_judge::{Stop, Task, judge_text};
use burr_runs::read_whole;
use std::rt::Files;

/// Runs a container's plan for an assembly with the answers of a source, if it is accepted (`Run`) or is for
/// that assembly (`Try`), and prints the sheet.
#[inline(never)]
pub fn run<'a, F: Files + AllocGlobal, R: Source, W: Sink>(
    files: &F,
    task: Task,
    assembly: &'a str,
    plan: &'a str,
    answers: &mut R,
    sink: &mut W,
) -> Result<Done<'a>, Stop<'a>>
    ensures { CommandResult W.Sink sink.old sink.new
        (AnsweredDone task (left_by R.Source answers.old answers.new) assembly.entry.now
        plan.entry.now)
        (AnsweredCommand task (left_by R.Source answers.old answers.new))
        (CannotRead (assembly.entry.now ∷ plan.entry.now ∷ codes "-" ∷ [])) never result }
{
    let drawing = read_file(files, assembly)?;
    let source = read_file(files, plan)?;
    let answers = read_whole(files.alloc(), answers)?;
    let status = judge_text(
        files.alloc(),
        task,
        drawing.bytes(),
        source.bytes(),
        &answers,
        sink,
    )?;
    Ok(Done {
        status,
        assembly: Some(drawing),
        source: Some(source),
        written: None,
    })
}
