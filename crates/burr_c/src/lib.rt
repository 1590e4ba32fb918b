//! The calls of burr for a program in C or Rust; `library/burr.h` declares them. A call takes the bytes of its inputs
//! and a buffer for what `burr` would print, and returns the status that `burr` would exit with: 0, 1, 3, 4 or 5.
//! `size` is how many bytes are printed, also if the buffer takes fewer.
//!
//! ```text
//! let status = burr_check(alloc, assembly, plan, &mut buffer, &mut size);
//! ```
#![tactic(auto)]

mod drive;
mod handle;
mod printed;
mod stepper;
#[cfg(test)]
mod tests;

ghost use Rattle.std.specs.Prelude.{[]};
ghost use Rattle.burr_judge.specs.declared.tasks.Task.TheVariants.{Check, Run, Try};
ghost use Rattle.burr_c.specs.CallEnds.{AssemblingEnds, StepsEnd};
ghost use Rattle.burr_c.specs.Calls.{call, IsTooLong, IsEitherTooLong, IsAnyTooLong, Returns};
ghost use Rattle.burr_judge.specs.PlanEnds.{PlanEnds};

use crate::printed::{give, print_assembled, print_judgement, print_steps};
use burr_judge::Task;
use std::alloc::Global;

/// Judges the container `plan` for the text of an assembly, as `burr check` does.
#[unsafe(no_mangle)]
pub extern "C" fn burr_check(
    alloc: Global,
    assembly: &[u8],
    plan: &[u8],
    buffer: &mut [u8],
    size: &mut usize,
) -> u8
    ensures { Returns (IsAnyTooLong assembly.now plan.now [])
        (PlanEnds Check assembly.now plan.now [])
        (call buffer.old buffer.new size.new result) }
{
    let printed = print_judgement(alloc, Task::Check, assembly, plan, &[]);
    give(printed, buffer, size)
}

/// Runs the container `plan`, where it is accepted, with the lines of `answers`, as `burr run`
/// does.
#[unsafe(no_mangle)]
pub extern "C" fn burr_run(
    alloc: Global,
    assembly: &[u8],
    plan: &[u8],
    answers: &[u8],
    buffer: &mut [u8],
    size: &mut usize,
) -> u8
    ensures { Returns (IsAnyTooLong assembly.now plan.now answers.now)
        (PlanEnds Run assembly.now plan.now answers.now)
        (call buffer.old buffer.new size.new result) }
{
    let printed = print_judgement(alloc, Task::Run, assembly, plan, answers);
    give(printed, buffer, size)
}

/// Runs the container `plan` without judging it, with the lines of `answers`, as `burr try` does.
#[unsafe(no_mangle)]
pub extern "C" fn burr_try(
    alloc: Global,
    assembly: &[u8],
    plan: &[u8],
    answers: &[u8],
    buffer: &mut [u8],
    size: &mut usize,
) -> u8
    ensures { Returns (IsAnyTooLong assembly.now plan.now answers.now)
        (PlanEnds Try assembly.now plan.now answers.now)
        (call buffer.old buffer.new size.new result) }
{
    let printed = print_judgement(alloc, Task::Try, assembly, plan, answers);
    give(printed, buffer, size)
}

/// Goes through the container `plan`, where it is accepted, from its start by the lines of
/// `commands`, as `burr step` does.
#[unsafe(no_mangle)]
pub extern "C" fn burr_step_through(
    alloc: Global,
    assembly: &[u8],
    plan: &[u8],
    commands: &[u8],
    buffer: &mut [u8],
    size: &mut usize,
) -> u8
    ensures { Returns (IsEitherTooLong assembly.now plan.now)
        (StepsEnd commands.now assembly.now plan.now)
        (call buffer.old buffer.new size.new result) }
{
    let printed = print_steps(alloc, assembly, plan, commands);
    give(printed, buffer, size)
}

/// Assembles a plan text, as `burr asm` does: with status 0 the bytes are those of the container,
/// with status 1 they are the line that refuses the text.
#[unsafe(no_mangle)]
pub extern "C" fn burr_assemble(
    alloc: Global,
    text: &[u8],
    buffer: &mut [u8],
    size: &mut usize,
) -> u8
    ensures { Returns (IsTooLong text.now) (AssemblingEnds text.now)
        (call buffer.old buffer.new size.new result) }
{
    let printed = print_assembled(alloc, text);
    give(printed, buffer, size)
}
