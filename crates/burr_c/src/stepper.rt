//! Calls by which a program in C goes through a plan step by step. It keeps the run, by a handle, from
//! call to call: nothing is read or judged again.

ghost use Rattle.std.specs.Prelude.{◌≡◌, ◌↔◌, None, IfErr, IfOk};
ghost use Rattle.burr_judge.specs.OpenEnds.{OpenEnds};
ghost use Rattle.burr_c.specs.declared.printed.CallFault.TheVariants.{TooLong};
ghost use Rattle.burr_c.specs.Calls.{IsEitherTooLong, Returns, call};
ghost use Rattle.burr_c.specs.OpenCalls.{NothingEnds, Opens, OpensAs};
ghost use Rattle.burr_c.specs.StepCalls.{CommandComes, StepperBegins};

use crate::drive::DriveStatus;
use crate::handle::{Handle, KeptRun};
use crate::printed::{CallFault, Printed, give, print_answer, print_opening};
use std::alloc::Global;

/// Opens a stepper of the container `plan`, where it is accepted, and prints nothing; or prints a
/// refusal. A run that the handle had is closed before. The handle has a stepper exactly where the status
/// is 0.
#[unsafe(no_mangle)]
pub extern "C" fn burr_step_open(
    alloc: Global,
    assembly: &[u8],
    plan: &[u8],
    buffer: &mut [u8],
    size: &mut usize,
    run: &mut Handle,
) -> u8
    ensures printed { Returns (IsEitherTooLong assembly.now plan.now)
        (OpenEnds NothingEnds assembly.now plan.now)
        (call buffer.old buffer.new size.new result) }
    ensures opened { OpensAs StepperBegins assembly.now plan.now result run.new.value }
{
    let printed = open(alloc, assembly, plan, run);
    give(printed, buffer, size)
}

/// Opens a stepper in the handle, where the plan is accepted: what there is to print.
fn open(
    alloc: Global,
    text: &[u8],
    container: &[u8],
    run: &mut Handle,
) -> Result<Printed, CallFault>
    ensures ok { IfOk result (λ printed. OpenEnds NothingEnds text.now container.now
        printed.bytes.items printed.status) }
    ensures opens { IfOk result (λ printed.
        Opens StepperBegins text.now container.now printed.status run.new.value) }
    ensures none { IfErr result (λ _. run.new.value ≡ None) }
    ensures short { IfOk result (λ _. ¬ IsEitherTooLong text.now container.now) }
    ensures long { IfErr result (λ fault.
        fault ≡ TooLong ↔ IsEitherTooLong text.now container.now) }
{
    let _old = run.take(alloc);
    let (printed, opened) = print_opening(alloc, text, container)?;
    if let Some(opened) = opened {
        let Ok(kept) = Box::new(alloc, KeptRun::Stepper(opened)) else {
            return Err(CallFault::Memory);
        };
        run.put(alloc, kept);
    }
    Ok(printed)
}

/// Answers a line of a command, without its end, as `burr step` does. 0, also where the command is
/// refused; 4 where a request for memory was refused; 7 where no stepper is open. After `quit` more
/// lines may come.
#[unsafe(no_mangle)]
pub extern "C" fn burr_step_command(
    alloc: Global,
    run: &mut Handle,
    line: &[u8],
    buffer: &mut [u8],
    size: &mut usize,
) -> u8
    ensures { CommandComes line.now run.old.value run.new.value
        (call buffer.old buffer.new size.new result) }
{
    *size = 0;
    let Some(mut open) = run.take(alloc) else {
        return DriveStatus::Closed.code();
    };
    let code = match &mut *open {
        KeptRun::Stepper(stepper) => give(print_answer(alloc, stepper, line), buffer, size),
        KeptRun::Drive(_) => DriveStatus::Closed.code(),
    };
    run.put(alloc, open);
    code
}
