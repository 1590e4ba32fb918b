ghost use Rattle.std.specs.Prelude.{◌≡◌, ◌∷◌, []};
ghost use Rattle.burr_io.specs.LineWriter.{lines_view};
ghost use Rattle.burr_runs.specs.Views.BenchText.{streams};
ghost use Rattle.burr_judge.specs.StepEnds.{left_by};
ghost use Rattle.burr_program.specs.Commands.{CommandResult, DriveCommand, DriveCommandBreaks, DriveDone};
ghost use Rattle.burr_program.specs.FileFaults.{CannotRead};

use crate::done::Done;
use crate::files::read_file;
use burr_io::{LineWriter, Sink, Source};
use burr_judge::{PlanInput, Stop, drive_text};
use std::rt::Files;

/// Drives a gripper through an accepted plan, a container or a text, move by move: answers each command of
/// the source before it reads the next one.
#[inline(never)]
pub fn drive<'a, F: Files + AllocGlobal, R: Source, W: Sink, const N: usize>(
    files: &F,
    assembly: &'a str,
    plan: &'a str,
    commands: &mut R,
    sink: &mut LineWriter<W, N>,
) -> Result<Done<'a>, Stop<'a>>
    requires fresh { sink.old.held ≡ [] }
    ensures { CommandResult (lines_view W.Sink) sink.old sink.new
        (DriveDone (left_by R.Source commands.old commands.new) assembly.entry.now plan.entry.now)
        (DriveCommand (left_by R.Source commands.old commands.new))
        (CannotRead (assembly.entry.now ∷ plan.entry.now ∷ []))
        (DriveCommandBreaks
        (streams R.Source commands.old commands.new W.Sink sink.old.sink sink.new.sink)) result }
{
    let drawing = read_file(files, assembly)?;
    let source = read_file(files, plan)?;
    let status = drive_text(
        files.alloc(),
        drawing.bytes(),
        PlanInput::of(source.bytes()),
        commands,
        sink,
    )?;
    Ok(Done {
        status,
        assembly: Some(drawing),
        source: Some(source),
        written: None,
    })
}
