//! Calls by which a program in C leads a run move by move. It keeps the run, by a handle, from call to
//! call: nothing is read or judged again.

ghost use Rattle.std.specs.Prelude.{◌≡◌, ◌↔◌, None, IfErr, IfOk};
ghost use Rattle.burr_judge.specs.DriveEnds.{ReadyEnds};
ghost use Rattle.burr_judge.specs.OpenEnds.{OpenEnds};
ghost use Rattle.burr_c.specs.declared.printed.CallFault.TheVariants.{TooLong};
ghost use Rattle.burr_c.specs.Calls.{IsEitherTooLong, Returns, call};
ghost use Rattle.burr_c.specs.OpenCalls.{Opens, OpensAs};
ghost use Rattle.burr_c.specs.DriveCalls.{AnswerComes, DriveBegins, GoComes, NextComes, told, code_of, halted, told_halt, told_move};

use crate::handle::{Handle, KeptRun};
use crate::printed::{CallFault, Printed, give, print_ready};
use burr_step::{Halt, Move};
use std::alloc::Global;

/// Opens a drive of the container `plan`, where it is accepted, and prints what `burr drive` does before
/// its first command: that the run is ready, with the digest of the assembly's text and the container;
/// or prints a refusal. A drive that the handle had is closed before. The handle has a drive exactly
/// where the status is 0.
#[unsafe(no_mangle)]
pub extern "C" fn burr_drive_open(
    alloc: Global,
    assembly: &[u8],
    plan: &[u8],
    buffer: &mut [u8],
    size: &mut usize,
    run: &mut Handle,
) -> u8
    ensures printed { Returns (IsEitherTooLong assembly.now plan.now)
        (OpenEnds (ReadyEnds assembly.now plan.now) assembly.now plan.now)
        (call buffer.old buffer.new size.new result) }
    ensures opened { OpensAs DriveBegins assembly.now plan.now result run.new.value }
{
    let printed = open(alloc, assembly, plan, run);
    give(printed, buffer, size)
}

/// Opens a drive in the handle, where the plan is accepted: what there is to print.
fn open(
    alloc: Global,
    text: &[u8],
    container: &[u8],
    run: &mut Handle,
) -> Result<Printed, CallFault>
    ensures ok { IfOk result (λ printed. OpenEnds (ReadyEnds text.now container.now) text.now
        container.now printed.bytes.items printed.status) }
    ensures opens { IfOk result (λ printed.
        Opens DriveBegins text.now container.now printed.status run.new.value) }
    ensures none { IfErr result (λ _. run.new.value ≡ None) }
    ensures short { IfOk result (λ _. ¬ IsEitherTooLong text.now container.now) }
    ensures long { IfErr result (λ fault.
        fault ≡ TooLong ↔ IsEitherTooLong text.now container.now) }
{
    let _old = run.take(alloc);
    let (printed, opened) = print_ready(alloc, text, container)?;
    if let Some(opened) = opened {
        let Ok(kept) = Box::new(alloc, KeptRun::Drive(opened)) else {
            return Err(CallFault::Memory);
        };
        run.put(alloc, kept);
    }
    Ok(printed)
}

/// Makes the next move, and gives it whole: 0. Or gives why there is no next move, and changes
/// nothing: 5 if the run waits for an answer, 6 if it has ended. 7 if no drive is open.
#[unsafe(no_mangle)]
pub extern "C" fn burr_drive_next(
    alloc: Global,
    run: &mut Handle,
    step: &mut ToldMove,
    halt: &mut ToldHalt,
) -> u8
    ensures { NextComes run.old.value run.new.value
        (told step.old step.new halt.old halt.new result) }
{
    let Some(mut open) = run.take(alloc) else {
        return DriveStatus::Closed.code();
    };
    let came = match &mut *open {
        KeptRun::Drive(drive) => match drive.next() {
            Ok(made) => {
                *step = ToldMove::of(made);
                DriveStatus::Done
            }
            Err(why) => {
                *halt = ToldHalt::of(why);
                DriveStatus::at(why)
            }
        },
        KeptRun::Stepper(_) => DriveStatus::Closed,
    };
    run.put(alloc, open);
    came.code()
}

/// Goes on without giving the moves, until that of a number is made: 0; or to where the run halts
/// before, and gives why: 5 or 6. 1 if a move of a greater number was made, and then nothing changes;
/// 7 if no drive is open.
#[unsafe(no_mangle)]
pub extern "C" fn burr_drive_goto(
    alloc: Global,
    run: &mut Handle,
    number: u32,
    halt: &mut ToldHalt,
) -> u8
    ensures { GoComes number run.old.value run.new.value halt.old halt.new result }
{
    let Some(mut open) = run.take(alloc) else {
        return DriveStatus::Closed.code();
    };
    let came = match &mut *open {
        KeptRun::Drive(drive) if number < drive.moves() => DriveStatus::Refused,
        KeptRun::Drive(drive) => match drive.go_to(number) {
            Ok(()) => DriveStatus::Done,
            Err(why) => {
                *halt = ToldHalt::of(why);
                DriveStatus::at(why)
            }
        },
        KeptRun::Stepper(_) => DriveStatus::Closed,
    };
    run.put(alloc, open);
    came.code()
}

/// Answers the question of a number, where it is the one for which the run waits and the answer fits it:
/// 0; else 1, and then nothing changes. 7 where no drive is open.
#[unsafe(no_mangle)]
pub extern "C" fn burr_drive_answer(
    alloc: Global,
    run: &mut Handle,
    question: u32,
    answer: i32,
) -> u8
    ensures { AnswerComes question answer run.old.value run.new.value result }
{
    let Some(mut open) = run.take(alloc) else {
        return DriveStatus::Closed.code();
    };
    let came = match &mut *open {
        KeptRun::Drive(drive) => {
            if drive.answer(question, answer) {
                DriveStatus::Done
            } else {
                DriveStatus::Refused
            }
        }
        KeptRun::Stepper(_) => DriveStatus::Closed,
    };
    run.put(alloc, open);
    came.code()
}

/// Closes the drive, if one is open, and gives back its memory.
#[unsafe(no_mangle)]
pub extern "C" fn burr_drive_close(alloc: Global, run: &mut Handle)
    ensures { run.new.value ≡ None }
{
    let _closed = run.take(alloc);
}

// What a program in C gets of a drive.

/// A whole move: unit steps of one group in one tray along one direction, perhaps with the way out.
#[repr(C)]
#[derive(Clone, Copy, Debug, PartialEq, Eq)]
pub struct ToldMove {
    /// The moves of a run are counted from 1.
    pub number: u32,
    /// The pieces that move: bit p is piece p.
    pub group: u32,
    pub units: u32,
    /// The pieces that are apart by the move: bit p is piece p.
    pub apart: u32,
    /// The tray to which the group goes out after these units, 0 to 31; -1 where it stays in its tray.
    pub out: i16,
    pub tray: u8,
    /// 0 to 5: +x, -x, +y, -y, +z, -z.
    pub direction: u8,
}

impl ToldMove {
    /// A move, as a program in C gets it.
    pub fn of(step: Move) -> ToldMove
        ensures { result ≡ told_move step }
    {
        ToldMove {
            number: step.number,
            group: step.group,
            units: step.units,
            apart: step.apart,
            out: match step.out {
                Some(tray) => i16::from(tray),
                None => -1,
            },
            tray: step.tray,
            direction: step.direction.number(),
        }
    }
}

/// Why a run makes no move: it waits for an answer, or has ended.
#[repr(C)]
#[derive(Clone, Copy, Debug, PartialEq, Eq)]
pub struct ToldHalt {
    /// The steps that were made, where the run has ended; else 0.
    pub steps: u64,
    /// The number of the question, from 1 on; 0 where the run has ended, and then what follows is 0.
    pub question: u32,
    /// The least number that answers it.
    pub low: i32,
    /// The greatest one.
    pub high: i32,
    /// Where the question stands in its procedure's code.
    pub pc: u16,
    pub procedure: u8,
}

impl ToldHalt {
    /// A halt, as a program in C gets it.
    pub fn of(halt: Halt) -> ToldHalt
        ensures { result ≡ told_halt halt }
    {
        match halt {
            Halt::Asks(question) => ToldHalt {
                steps: 0,
                question: question.number,
                low: question.low,
                high: question.high,
                pc: question.pc,
                procedure: question.procedure,
            },
            Halt::Ends(steps) => ToldHalt {
                steps,
                question: 0,
                low: 0,
                high: 0,
                pc: 0,
                procedure: 0,
            },
        }
    }
}

/// How a call of a drive ended, as it returns it.
#[derive(Clone, Copy, Debug, PartialEq, Eq)]
pub enum DriveStatus {
    /// What was asked is done: a move is made, or an answer taken.
    Done,
    /// The command is refused, and nothing has changed.
    Refused,
    /// The run waits for an answer.
    Waiting,
    /// The run has ended.
    Ended,
    /// No drive is open.
    Closed,
}

impl DriveStatus {
    /// How a call ended if the run halted so.
    pub fn at(halt: Halt) -> DriveStatus
        ensures { result ≡ halted halt }
    {
        match halt {
            Halt::Asks(_question) => DriveStatus::Waiting,
            Halt::Ends(_steps) => DriveStatus::Ended,
        }
    }

    /// What a call returns.
    pub fn code(self) -> u8
        ensures { result ≡ code_of self }
    {
        match self {
            DriveStatus::Done => 0,
            DriveStatus::Refused => 1,
            DriveStatus::Waiting => 5,
            DriveStatus::Ended => 6,
            DriveStatus::Closed => 7,
        }
    }
}
