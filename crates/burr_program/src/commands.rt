//! The commands, a file each: each reads its files, does what it is for, and prints.

mod asm;
mod cells;
mod check;
mod drive;
mod explain;
mod frames;
mod judge;
mod list;
mod plan;
mod run;
mod step;
mod trace;
mod upgrade;
mod why;

ghost use Rattle.std.specs.Prelude.{◌≡◌, []};
ghost use Rattle.burr_io.specs.LineWriter.{lines_view};
ghost use Rattle.burr_runs.specs.Views.BenchText.{streams};
ghost use Rattle.burr_judge.specs.StepEnds.{left_by};
ghost use Rattle.burr_program.specs.Commands.{CommandResult, JobBreaks, JobDone, JobEnds, JobFails};
ghost use Rattle.burr_program.specs.HowFar.{TellsHowFar};

use crate::done::Done;
use crate::program::Streams;
use burr_command::Job;
use burr_io::{Sink, Source};
use burr_judge::{LineEnd, Stop, Task};
use std::rt::Files;

/// Does a command's job, and prints on standard output; `frames` reports its progress on standard error.
pub fn do_job<
    'a,
    F: Files + AllocGlobal,
    R: Source,
    W: Sink,
    E: Sink,
    const N: usize,
    const M: usize,
>(files: &F, job: &'a Job<'_>, io: &mut Streams<R, W, E, N, M>) -> Result<Done<'a>, Stop<'a>>
    requires fresh { io.old.sink.held ≡ [] }
    requires told { io.old.errors.held ≡ [] }
    ensures ends { CommandResult (lines_view W.Sink) io.old.sink io.new.sink
        (JobDone (left_by R.Source io.old.source io.new.source) job.entry.now)
        (JobEnds (left_by R.Source io.old.source io.new.source) job.entry.now) (JobFails job.entry.now)
        (JobBreaks (streams R.Source io.old.source io.new.source W.Sink io.old.sink.sink
        io.new.sink.sink) job.entry.now) result }
    ensures told { TellsHowFar E.Sink job.entry.now io.old.errors io.new.errors }
{
    let source = &mut io.source;
    let sink = &mut io.sink;
    match job {
        Job::Cells { assembly } => cells::cells(files, assembly, sink),
        Job::Assemble { text, out } => asm::asm(files, text, out),
        Job::List { plan, places } => list::list(files, plan, *places, sink),
        Job::Upgrade { plan, out } => upgrade::upgrade(files, plan, out),
        Job::Check { assembly, plan } => check::check(files, assembly, plan, sink),
        Job::Judge { null: true } => judge::judge(files, LineEnd::SecondNul, 0, source, sink),
        Job::Judge { null: false } => judge::judge(files, LineEnd::LineFeed, b'\t', source, sink),
        Job::Run { assembly, plan } => run::run(files, Task::Run, assembly, plan, source, sink),
        Job::Try { assembly, plan } => run::run(files, Task::Try, assembly, plan, source, sink),
        Job::Step { assembly, plan } => step::step(files, assembly, plan, source, sink),
        Job::Drive { assembly, plan } => drive::drive(files, assembly, plan, source, sink),
        Job::Why { assembly, text } => why::why(files, assembly, text, sink),
        Job::Trace { assembly, text } => trace::trace(files, assembly, text, source, sink),
        Job::Frames {
            assembly,
            text,
            out,
        } => frames::frames(files, assembly, text, out, sink, &mut io.errors),
        Job::PlanSheet {
            assembly,
            sheet,
            out,
        } => plan::plan(files, assembly, sheet, out),
        Job::Explain { line } => explain::explain(line, sink),
    }
}
