//! The commands on a plan and an assembly: the plan is judged, run with answers, or gone through by lines
//! of commands, step by step or move by move.

ghost use Rattle.std.specs.Prelude.{◌≡◌, ◌++◌, [], IfErr, IfOk, OnErr, OnOk, string_bytes};
ghost use Rattle.hex.specs.Hex.{encode_lower};
ghost use Rattle.sha2.specs.Sha256.{sha256};
ghost use Rattle.burr_container.specs.Views.Containers.{HasPlan};
ghost use Rattle.burr_io.specs.Sink.{Takes};
ghost use Rattle.burr_io.specs.LineWriter.{lines_view};
ghost use Rattle.burr_runs.specs.Views.BenchText.{streams};
ghost use Rattle.burr_step.specs.Views.Driving.{IsReady};
ghost use Rattle.burr_step.specs.Views.Stepping.{IsFresh};
ghost use Rattle.burr_judge.specs.DriveEnds.{DriveBreaks, DriveEnds, DriveTextBreaks, DriveTextEnds, FailsInReady, FailsToBegin, LeavesWith, ReadyEnds, ready_line, ready_text};
ghost use Rattle.burr_judge.specs.OpenEnds.{IsOpened, OpenBreaks, OpenEnds, RefusesToOpen};
ghost use Rattle.burr_judge.specs.PlanEnds.{CheckEnds, CheckTextEnds, InputEnds, PlanEnds, RunEnds, TryEnds, never};
ghost use Rattle.burr_judge.specs.StepEnds.{ReadsIfAccepted, StepBreaks, StepEnds, StepTextEnds, StepTextBreaks, left_by};
ghost use Rattle.burr_judge.specs.Stops.{Refuses, ResultOn, done_of};

use crate::commands::OwnedStepper;
use crate::dialogue::{LineEnd, answer_commands};
use crate::judging::{judge_plan, read_tables, start_plan};
use crate::plan_input::PlanInput;
use crate::status::Status;
use crate::stop::Stop;
use burr_blocking::{Blocking, RowTables};
use burr_container::Container;
use burr_io::{LineWriter, Sink, Source, WriteFault, put_words};
use burr_runs::{Observer, put_accepted, read_answers, run_plan, try_observed};
use burr_step::{Drive, Halt, OwnedDrive, Stepper};
use sha2::{Digest, Sha256};
use std::alloc::{AllocError, Global};

/// What is done with a plan and an assembly.
#[derive(Clone, Copy, Debug, PartialEq, Eq)]
pub enum Task {
    /// Judges the plan.
    Check,
    /// Judges the plan, and runs it if it is accepted.
    Run,
    /// Runs the plan without judging it.
    Try,
}

/// Does the task with an assembly's text, a container and a text of answers, and writes what it prints. The
/// text is judged first, then the container, the plan and the answers. `Check` reads no answers.
#[inline(never)]
pub fn judge_text<'y, W: Sink>(
    alloc: Global,
    task: Task,
    text: &[u8],
    bytes: &[u8],
    answers: &[u8],
    sink: &mut W,
) -> Result<Status, Stop<'y>>
    ensures { ResultOn W.Sink sink.old sink.new (PlanEnds task text.now bytes.now answers.now) never
        result }
{
    let tables = read_tables(alloc, text)?;
    let container = Container::parse(bytes)?;
    match task {
        Task::Check => check_plan(&container, &tables, sink),
        Task::Run => run_accepted(alloc, &container, &tables, answers, sink),
        Task::Try => try_plan(alloc, &container, &tables, answers, &mut (), sink),
    }
}

/// Judges a plan for the assembly of a text, and writes the verdict.
#[inline(never)]
pub fn check_text<'y, W: Sink>(
    alloc: Global,
    text: &[u8],
    plan: PlanInput<'_>,
    sink: &mut W,
) -> Result<Status, Stop<'y>>
    ensures { ResultOn W.Sink sink.old sink.new (CheckTextEnds text.now plan.entry) never result }
{
    let tables = read_tables(alloc, text)?;
    check_input(alloc, &tables, plan, sink)
}

/// Judges a plan for the assembly of these tables, and writes the verdict.
#[inline(never)]
pub fn check_input<'y, B: Blocking, W: Sink>(
    alloc: Global,
    tables: &B,
    plan: PlanInput<'_>,
    sink: &mut W,
) -> Result<Status, Stop<'y>>
    ensures { ResultOn W.Sink sink.old sink.new
        (InputEnds plan.entry (λ kept. CheckEnds kept (B.subject tables.now))) never result }
{
    let bytes = plan.bytes(alloc)?;
    let container = Container::parse(&bytes)?;
    check_plan(&container, tables, sink)
}

/// Judges a container's plan for the assembly of these tables, and writes the verdict.
#[inline(never)]
pub fn check_plan<'y, B: Blocking, W: Sink>(
    container: &Container<'_>,
    tables: &B,
    sink: &mut W,
) -> Result<Status, Stop<'y>>
    requires plan { HasPlan container.now }
    ensures { ResultOn W.Sink sink.old sink.new (CheckEnds container.now (B.subject tables.now))
        never result }
{
    let (accepted, looks) = judge_plan(container, tables)?;
    put_accepted(accepted.cost(), container.header().budget, looks, sink)?;
    Ok(Status::Done)
}

/// Runs a container's plan, if it is accepted, with the answers of a text, and writes the sheet.
#[inline(never)]
fn run_accepted<'y, W: Sink>(
    alloc: Global,
    container: &Container<'_>,
    tables: &RowTables<'_>,
    answers: &[u8],
    sink: &mut W,
) -> Result<Status, Stop<'y>>
    requires plan { HasPlan container.now }
    ensures { ResultOn W.Sink sink.old sink.new
        (RunEnds container.now tables.now.assembly answers.now) never result }
{
    let (accepted, _looks) = judge_plan(container, tables)?;
    let answers = read_answers(alloc, answers)?;
    let outcome = run_plan(&accepted, &answers, sink)?;
    Ok(Status::from(outcome))
}

/// Runs a container's plan on the bench, if it is for the assembly, with the answers of a text, and writes
/// the sheet. The observer sees the run.
#[inline(never)]
pub fn try_plan<'y, B: Blocking, O: Observer, W: Sink>(
    alloc: Global,
    container: &Container<'_>,
    tables: &B,
    answers: &[u8],
    observer: &mut O,
    sink: &mut W,
) -> Result<Status, Stop<'y>>
    ensures { ResultOn W.Sink sink.old sink.new
        (TryEnds container.now (B.subject tables.now) answers.now) never result }
{
    let mut bench = start_plan(container, tables)?;
    let answers = read_answers(alloc, answers)?;
    let outcome = try_observed(&mut bench, &answers, observer, sink)?;
    Ok(Status::from(outcome))
}

/// Goes through the plan of a container step by step. Each command of the source is answered on the sink
/// before the next one is read. The source is read only if the plan is accepted.
#[inline(never)]
pub fn step_text<'y, R: Source, W: Sink, const N: usize>(
    alloc: Global,
    text: &[u8],
    bytes: &[u8],
    source: &mut R,
    sink: &mut LineWriter<W, N>,
) -> Result<Status, Stop<'y>>
    requires fresh { sink.old.held ≡ [] }
    ensures { ResultOn (lines_view W.Sink) sink.old sink.new
        (StepTextEnds (left_by R.Source source.old source.new) text.now bytes.now)
        (StepTextBreaks (streams R.Source source.old source.new W.Sink sink.old.sink sink.new.sink)
        text.now bytes.now) result }
{
    let tables = read_tables(alloc, text)?;
    let container = Container::parse(bytes)?;
    step_plan(alloc, &container, &tables, source, sink)
}

/// Goes through a container's plan step by step, if it is accepted.
#[inline(never)]
fn step_plan<'y, R: Source, W: Sink, const N: usize>(
    alloc: Global,
    container: &Container<'_>,
    tables: &RowTables<'_>,
    source: &mut R,
    sink: &mut LineWriter<W, N>,
) -> Result<Status, Stop<'y>>
    requires plan { HasPlan container.now }
    requires fresh { sink.old.held ≡ [] }
    ensures { ResultOn (lines_view W.Sink) sink.old sink.new
        (ReadsIfAccepted (left_by R.Source source.old source.new)
        (StepEnds (left_by R.Source source.old source.new) container.now tables.now.assembly))
        (StepBreaks (streams R.Source source.old source.new W.Sink sink.old.sink sink.new.sink)
        container.now tables.now.assembly) result }
{
    let (accepted, _looks) = judge_plan(container, tables)?;
    let mut stepper = Stepper::new(alloc, &accepted)?;
    answer_commands(LineEnd::LineFeed, &mut stepper, source, sink)?;
    Ok(Status::Done)
}

/// Drives a gripper through a plan move by move. It writes that the run is ready, with the digest of the
/// text and the container. Then each command of the source is answered on the sink before the next one is
/// read. The source is read only if the plan is accepted. Returns `Waiting` if the last command leaves a
/// question open.
#[inline(never)]
pub fn drive_text<'y, R: Source, W: Sink, const N: usize>(
    alloc: Global,
    text: &[u8],
    plan: PlanInput<'_>,
    source: &mut R,
    sink: &mut LineWriter<W, N>,
) -> Result<Status, Stop<'y>>
    requires fresh { sink.old.held ≡ [] }
    ensures { ResultOn (lines_view W.Sink) sink.old sink.new
        (DriveTextEnds (left_by R.Source source.old source.new) text.now plan.entry)
        (DriveTextBreaks (streams R.Source source.old source.new W.Sink sink.old.sink sink.new.sink)
        text.now plan.entry) result }
{
    let tables = read_tables(alloc, text)?;
    let bytes = plan.bytes(alloc)?;
    let container = Container::parse(&bytes)?;
    let digest = digest_of(alloc, text, &bytes)?;
    drive_plan(&digest, &container, &tables, source, sink)
}

/// Drives a gripper through a container's plan move by move, if it is accepted. It writes that the run is
/// ready, with this digest.
#[inline(never)]
fn drive_plan<'y, R: Source, W: Sink, const N: usize>(
    digest: &str,
    container: &Container<'_>,
    tables: &RowTables<'_>,
    source: &mut R,
    sink: &mut LineWriter<W, N>,
) -> Result<Status, Stop<'y>>
    requires plan { HasPlan container.now }
    requires fresh { sink.old.held ≡ [] }
    ensures { ResultOn (lines_view W.Sink) sink.old sink.new
        (ReadsIfAccepted (left_by R.Source source.old source.new)
        (DriveEnds (left_by R.Source source.old source.new) (ready_line digest.now) container.now
        tables.now.assembly))
        (DriveBreaks (streams R.Source source.old source.new W.Sink sink.old.sink sink.new.sink)
        (ready_line digest.now) container.now tables.now.assembly) result }
{
    let (accepted, _looks) = judge_plan(container, tables)?;
    let mut drive = Drive::new(&accepted);
    put_ready(digest, sink)?;
    answer_commands(LineEnd::LineFeed, &mut drive, source, sink)?;
    Ok(status_after(&drive))
}

/// Opens a drive of a container's plan, if it is accepted. It writes that the run is ready, with the digest
/// of the text and the container.
#[inline(never)]
pub fn open_drive<'y, W: Sink, const N: usize>(
    alloc: Global,
    text: &[u8],
    bytes: &[u8],
    sink: &mut LineWriter<W, N>,
) -> Result<OwnedDrive, Stop<'y>>
    requires fresh { sink.old.held ≡ [] }
    ensures puts { ResultOn (lines_view W.Sink) sink.old sink.new
        (OpenEnds (ReadyEnds text.now bytes.now) text.now bytes.now)
        (OpenBreaks (FailsToBegin W.Sink sink.old sink.new (ready_text text.now bytes.now)) text.now
        bytes.now) (done_of result) }
    ensures opens { IfOk result (IsOpened IsReady text.now bytes.now) }
{
    let tables = read_tables(alloc, text)?;
    let container = Container::parse(bytes)?;
    let (accepted, _looks) = judge_plan(&container, &tables)?;
    let drive = OwnedDrive::new(alloc, &accepted)?;
    let digest = digest_of(alloc, text, bytes)?;
    put_ready(&digest, sink)?;
    Ok(drive)
}

/// Opens a stepper of a container's plan, if it is accepted.
#[inline(never)]
pub fn open_stepper<'y>(alloc: Global, text: &[u8], bytes: &[u8]) -> Result<OwnedStepper, Stop<'y>>
    ensures opens { IfOk result (IsOpened IsFresh text.now bytes.now) }
    ensures err { IfErr result (Refuses (RefusesToOpen text.now bytes.now)) }
{
    let tables = read_tables(alloc, text)?;
    let container = Container::parse(bytes)?;
    let (accepted, _looks) = judge_plan(&container, &tables)?;
    Ok(OwnedStepper::new(alloc, &accepted)?)
}

/// Writes that a run is ready, with the digest of what it is of, and flushes the line.
fn put_ready<W: Sink, const N: usize>(
    digest: &str,
    sink: &mut LineWriter<W, N>,
) -> Result<(), WriteFault>
    requires fresh { sink.old.held ≡ [] }
    ensures ok { OnOk result
        (Takes W.Sink sink.old.sink sink.new.sink (ready_line digest.now)
        × (sink.new.held ≡ [])) }
    ensures err { OnErr result (FailsInReady W.Sink sink.old sink.new (ready_line digest.now)) }
{
    put_words(&[b"ready", digest.as_bytes()], sink)?;
    sink.flush()
}

/// Returns the SHA-256 of two texts, one after the other, in hexadecimal digits.
fn digest_of(alloc: Global, text: &[u8], bytes: &[u8]) -> Result<String, AllocError>
    ensures { IfOk result (λ digest. string_bytes digest
        ≡ encode_lower (sha256 (text.now ++ bytes.now))) }
{
    let mut hasher = Sha256::new();
    hasher.update(text);
    hasher.update(bytes);
    hex::encode(alloc, hasher.finalize())
}

/// Returns the status of a drive after its last command: a question may be open.
fn status_after(drive: &Drive<'_>) -> Status
    ensures { LeavesWith drive.now result }
{
    match drive.halt() {
        Some(Halt::Asks(_question)) => Status::Waiting,
        _ => Status::Done,
    }
}
