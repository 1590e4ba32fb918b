//! What there is to print for a call, kept in memory.

ghost use Rattle.std.specs.Prelude.{◌≡◌, ◌≢◌, ◌↔◌, IfOk, IfErr, IsTrue, ◌++◌, [], length, take, drop};
ghost use Rattle.burr_c.specs.declared.printed.CallFault.TheVariants.{Memory, TooLong};
ghost use Rattle.burr_c.specs.CallEnds.{AssemblingEnds, StepsEnd};
ghost use Rattle.burr_c.specs.Calls.{IsTooLong, IsEitherTooLong, IsAnyTooLong, call, Gives};
ghost use Rattle.burr_step.specs.Views.Driving.{IsReady};
ghost use Rattle.burr_judge.specs.DriveEnds.{ReadyEnds};
ghost use Rattle.burr_judge.specs.OpenEnds.{OpenEnds};
ghost use Rattle.burr_asm.specs.declared.fault.AsmFault.TheVariants as asm;
ghost use Rattle.burr_c.specs.OpenCalls.{NothingEnds, Opens};
ghost use Rattle.burr_c.specs.Printing.{HoldsAll};
ghost use Rattle.burr_judge.specs.declared.status.Status.TheVariants.{Done};
ghost use Rattle.burr_step.specs.Views.Stepping.{IsFresh};
ghost use Rattle.burr_c.specs.StepCalls.{AnswersWith, LosesAnswer};
ghost use Rattle.burr_judge.specs.PlanEnds.{IsRefusal, PlanEnds};
ghost use Rattle.burr_judge.specs.Refusals.{plan_text_refusal};
ghost use Rattle.burr_c.specs.Statuses.{status_of_fault};

use burr_asm::{AsmFault, assemble};
use burr_io::{LineWriter, Reading, VecSink, WriteFault};
use burr_judge::{
    OwnedStepper, Status, StepFault, Stop, Task, judge_text, open_drive, open_stepper, report,
    step_text,
};
use burr_runs::LIMIT;
use burr_step::OwnedDrive;
use std::alloc::Global;
use thiserror::Error;

/// How many bytes of an answer to a command are held back before they are kept.
const HELD: usize = 1_024;

/// What is printed, and the status that goes with it.
#[derive(Drop)]
pub struct Printed {
    pub bytes: Vec<u8>,
    pub status: Status,
}

/// Why there is nothing to print.
#[derive(Clone, Copy, Debug, PartialEq, Eq, Error)]
pub enum CallFault {
    #[error("an input has more than 16777216 bytes")]
    TooLong,
    #[error("no memory")]
    Memory,
}

impl CallFault {
    ghost use Rattle.std.specs.Prelude.{◌≡◌};
    ghost use Rattle.burr_c.specs.Statuses.{status_of_fault};

    /// The status to end with.
    pub fn status(self) -> Status
        ensures { result ≡ status_of_fault self }
    {
        match self {
            CallFault::TooLong => Status::Failed,
            CallFault::Memory => Status::Memory,
        }
    }
}

/// What is printed is kept in memory, so that nothing but memory is wanting.
impl From<burr_judge::Fault<'_>> for CallFault {
    ghost use Rattle.std.specs.Prelude.{◌≡◌};
    ghost use Rattle.burr_c.specs.declared.printed.CallFault.TheVariants.{Memory};

    ghost from_gives = { λ _ e. e ≡ Memory };

    fn from(_e: burr_judge::Fault<'_>) -> CallFault {
        CallFault::Memory
    }
}

impl From<StepFault> for CallFault {
    ghost use Rattle.std.specs.Prelude.{◌≡◌};
    ghost use Rattle.burr_c.specs.declared.printed.CallFault.TheVariants.{Memory};

    ghost from_gives = { λ _ e. e ≡ Memory };

    fn from(_e: StepFault) -> CallFault {
        CallFault::Memory
    }
}

impl From<WriteFault> for CallFault {
    ghost use Rattle.std.specs.Prelude.{◌≡◌};
    ghost use Rattle.burr_c.specs.declared.printed.CallFault.TheVariants.{Memory};

    ghost from_gives = { λ _ e. e ≡ Memory };

    fn from(_e: WriteFault) -> CallFault {
        CallFault::Memory
    }
}

/// What `check`, `run` or `try` print of an assembly's text, a container and a text of answers.
/// `TooLong` where one of them has more than 16,777,216 bytes, and `Memory` where a request for
/// memory was refused.
pub fn print_judgement(
    alloc: Global,
    task: Task,
    text: &[u8],
    container: &[u8],
    answers: &[u8],
) -> Result<Printed, CallFault>
    ensures ok { IfOk result (λ printed.
        PlanEnds task text.now container.now answers.now printed.bytes.items printed.status) }
    ensures short { IfOk result (λ _. ¬ IsAnyTooLong text.now container.now answers.now) }
    ensures long { IfErr result (λ fault.
        fault ≡ TooLong ↔ IsAnyTooLong text.now container.now answers.now) }
{
    if is_too_long(text) || is_too_long(container) || is_too_long(answers) {
        return Err(CallFault::TooLong);
    }
    let mut kept = VecSink::new(alloc);
    let done = judge_text(alloc, task, text, container, answers, &mut kept);
    let status = report(done, &mut kept)?;
    Ok(Printed {
        bytes: kept.into_bytes(),
        status,
    })
}

/// What `step` prints of an assembly's text and a container for lines of commands. `TooLong` where
/// the text or the container has more than 16,777,216 bytes, and `Memory` where a request for
/// memory was refused.
pub fn print_steps(
    alloc: Global,
    text: &[u8],
    container: &[u8],
    commands: &[u8],
) -> Result<Printed, CallFault>
    ensures ok { IfOk result (λ printed. StepsEnd commands.now text.now container.now
        printed.bytes.items printed.status) }
    ensures short { IfOk result (λ _. ¬ IsEitherTooLong text.now container.now) }
    ensures long { IfErr result (λ fault.
        fault ≡ TooLong ↔ IsEitherTooLong text.now container.now) }
{
    if is_too_long(text) || is_too_long(container) {
        return Err(CallFault::TooLong);
    }
    let mut source = Reading::new(commands);
    let mut sink: LineWriter<_, HELD> = LineWriter::new(VecSink::new(alloc));
    let done = step_text(alloc, text, container, &mut source, &mut sink);
    let status = report(done, &mut sink)?;
    Ok(print_lines(status, sink)?)
}

/// A drive of a container's plan for an assembly's text, where the plan is accepted, and what `drive`
/// prints before its first command; or the refusal, and no drive. `TooLong` where the text or the
/// container has more than 16,777,216 bytes, and `Memory` where a request for memory was refused.
pub fn print_ready(
    alloc: Global,
    text: &[u8],
    container: &[u8],
) -> Result<(Printed, Option<OwnedDrive>), CallFault>
    ensures ok { IfOk result (λ ready. OpenEnds (ReadyEnds text.now container.now) text.now
        container.now ready.0.bytes.items ready.0.status) }
    ensures opens { IfOk result (λ ready.
        Opens IsReady text.now container.now ready.0.status ready.1) }
    ensures short { IfOk result (λ _. ¬ IsEitherTooLong text.now container.now) }
    ensures long { IfErr result (λ fault.
        fault ≡ TooLong ↔ IsEitherTooLong text.now container.now) }
{
    if is_too_long(text) || is_too_long(container) {
        return Err(CallFault::TooLong);
    }
    let mut lines: LineWriter<_, HELD> = LineWriter::new(VecSink::new(alloc));
    match open_drive(alloc, text, container, &mut lines) {
        Ok(drive) => Ok((print_lines(Status::Done, lines)?, Some(drive))),
        Err(stop) => {
            let status = report(Err(stop), &mut lines)?;
            Ok((print_lines(status, lines)?, None))
        }
    }
}

/// Flushes what is held back, and returns all that was written, with a status.
fn print_lines(status: Status, mut lines: LineWriter<VecSink, HELD>) -> Result<Printed, WriteFault>
    ensures ok { IfOk result (λ printed. HoldsAll lines printed.bytes.items) }
    ensures status { IfOk result (λ printed. printed.status ≡ status) }
{
    lines.flush()?;
    Ok(Printed {
        bytes: lines.into_sink().into_bytes(),
        status,
    })
}

/// A stepper of a container's plan for an assembly's text, where the plan is accepted, and nothing
/// printed; or the refusal, and no stepper. `TooLong` where the text or the container has more than
/// 16,777,216 bytes, and `Memory` where a request for memory was refused.
pub fn print_opening(
    alloc: Global,
    text: &[u8],
    container: &[u8],
) -> Result<(Printed, Option<OwnedStepper>), CallFault>
    ensures ok { IfOk result (λ opened.
        OpenEnds NothingEnds text.now container.now opened.0.bytes.items opened.0.status) }
    ensures opens { IfOk result (λ opened.
        Opens IsFresh text.now container.now opened.0.status opened.1) }
    ensures short { IfOk result (λ _. ¬ IsEitherTooLong text.now container.now) }
    ensures long { IfErr result (λ fault.
        fault ≡ TooLong ↔ IsEitherTooLong text.now container.now) }
{
    if is_too_long(text) || is_too_long(container) {
        return Err(CallFault::TooLong);
    }
    let mut kept = VecSink::new(alloc);
    match open_stepper(alloc, text, container) {
        Ok(stepper) => {
            let printed = Printed {
                bytes: kept.into_bytes(),
                status: Status::Done,
            };
            Ok((printed, Some(stepper)))
        }
        Err(stop) => {
            let status = report(Err(stop), &mut kept)?;
            let printed = Printed {
                bytes: kept.into_bytes(),
                status,
            };
            Ok((printed, None))
        }
    }
}

/// What a stepper answers to a line of a command, with `Done`. `Memory` where a request for memory was
/// refused: then the line counts as not given, or it was taken and its answer is lost.
pub fn print_answer(
    alloc: Global,
    stepper: &mut OwnedStepper,
    line: &[u8],
) -> Result<Printed, CallFault>
    ensures ok { IfOk result (λ printed.
        AnswersWith stepper.old line.now printed.bytes.items stepper.new
        × (printed.status ≡ Done)) }
    ensures err { IfErr result (λ fault.
        (fault ≡ Memory) × LosesAnswer stepper.old line.now stepper.new) }
{
    let mut kept = VecSink::new(alloc);
    stepper.command(line, &mut kept)?;
    Ok(Printed {
        bytes: kept.into_bytes(),
        status: Status::Done,
    })
}

/// The container of a plan text, with `Done`; or the line that refuses the text. `TooLong` where it
/// has more than 16,777,216 bytes, and `Memory` where a request for memory was refused.
pub fn print_assembled(alloc: Global, text: &[u8]) -> Result<Printed, CallFault>
    ensures ok { IfOk result (λ printed.
        AssemblingEnds text.now printed.bytes.items printed.status) }
    ensures short { IfOk result (λ _. ¬ IsTooLong text.now) }
    ensures long { IfErr result (λ fault. fault ≡ TooLong ↔ IsTooLong text.now) }
{
    if is_too_long(text) {
        return Err(CallFault::TooLong);
    }
    match assemble(alloc, text) {
        Ok(bytes) => Ok(Printed {
            bytes,
            status: Status::Done,
        }),
        Err(fault) => print_text_refusal(alloc, fault),
    }
}

/// The line that refuses a plan text.
fn print_text_refusal(alloc: Global, fault: AsmFault) -> Result<Printed, CallFault>
    ensures ok { IfOk result (λ printed.
        IsRefusal (plan_text_refusal fault) printed.bytes.items printed.status) }
    ensures some { IfOk result (λ _. fault ≢ asm.Memory) }
    ensures memory { IfErr result (λ fault. fault ≡ Memory) }
{
    let mut kept = VecSink::new(alloc);
    let status = report(Err(Stop::from(fault)), &mut kept)?;
    Ok(Printed {
        bytes: kept.into_bytes(),
        status,
    })
}

/// Whether there are more bytes than the program reads.
fn is_too_long(bytes: &[u8]) -> bool
    ensures { IsTrue result ↔ IsTooLong bytes.now }
{
    bytes.len() > LIMIT
}

/// Copies what is printed to the front of the caller's buffer, as far as it goes there, sets the size to
/// the number of bytes that are printed, and returns the number of the status. After a fault no byte is
/// printed.
pub fn give(printed: Result<Printed, CallFault>, buffer: &mut [u8], size: &mut usize) -> u8
    ensures ok { IfOk printed (λ printed. Gives printed.bytes.items printed.status
        (call buffer.old buffer.new size.new result)) }
    ensures err { IfErr printed (λ fault. Gives [] (status_of_fault fault)
        (call buffer.old buffer.new size.new result)) }
{
    match printed {
        Ok(printed) => {
            copy_front(&printed.bytes, buffer);
            *size = printed.bytes.len();
            printed.status.code()
        }
        Err(fault) => {
            *size = 0;
            fault.status().code()
        }
    }
}

/// Copies bytes to the front of a buffer, as many as it takes.
fn copy_front(bytes: &[u8], buffer: &mut [u8])
    ensures { buffer.new ≡ take (length buffer.old) bytes.now ++ drop (length bytes.now) buffer.old }
{
    let count = bytes.len().min(buffer.len());
    buffer[..count].copy_from_slice(&bytes[..count]);
}
