//! The calls that take memory.

use crate::inputs;
use crate::inputs::TEXT;
use burr_assembly::Assembly;
use burr_blocking::PlainCells;
use burr_container::{Container, Plan};
use burr_io::{VecSink, Writing};
use burr_judge::{
    CommandHandler, Fault, OwnedStepper, PlanInput, ReadText, Status, StepFault, Stop, check_input,
    check_text,
};
use burr_step::{OwnedDrive, StepRefusal, Stepper};
use burr_testing::plans::CUP;
use burr_verify::accept;
use std::alloc::{AllocError, Global};
use std::io::Cursor;

/// A call that takes memory.
#[derive(Clone, Copy)]
pub enum Call {
    ReadAssembly,
    WriteAssembly,
    BuildCellTables,
    BuildRowTables,
    Encode,
    RestorePlan,
    WritePlan,
    Assemble,
    List,
    Upgrade,
    ReadAnswers,
    Expand,
    ReadWhole,
    RunBench,
    MakeStepper,
    KeepDrive,
    KeepStepper,
    Answer,
    Command,
    CheckText,
    CheckInput,
    ReadText,
}

/// All of them, by their names.
pub const CALLS: [(&str, Call); 22] = [
    ("Assembly::read", Call::ReadAssembly),
    ("Assembly::write", Call::WriteAssembly),
    ("CellTables::build", Call::BuildCellTables),
    ("RowTables::build", Call::BuildRowTables),
    ("encode", Call::Encode),
    ("Plan::of", Call::RestorePlan),
    ("write", Call::WritePlan),
    ("assemble", Call::Assemble),
    ("list", Call::List),
    ("upgrade", Call::Upgrade),
    ("read_answers", Call::ReadAnswers),
    ("expand", Call::Expand),
    ("read_whole", Call::ReadWhole),
    ("bench_text", Call::RunBench),
    ("Stepper::new", Call::MakeStepper),
    ("OwnedDrive::new", Call::KeepDrive),
    ("OwnedStepper::new", Call::KeepStepper),
    ("Stepper::answer", Call::Answer),
    ("command", Call::Command),
    ("check_text", Call::CheckText),
    ("check_input", Call::CheckInput),
    ("ReadText::new", Call::ReadText),
];

impl Call {
    /// Makes the call: whether it gives what it should. An error is want of memory.
    pub fn is_right(self, kit: &Kit<'_>) -> Result<bool, AllocError> {
        match self {
            Call::ReadAssembly => inputs::assembly_is_read(kit),
            Call::WriteAssembly => inputs::assembly_is_written(kit),
            Call::BuildCellTables => inputs::cell_tables_are_built(kit),
            Call::BuildRowTables => inputs::row_tables_are_built(kit),
            Call::Encode => inputs::instruction_is_encoded(kit),
            Call::RestorePlan => inputs::plan_is_restored(kit),
            Call::WritePlan => inputs::plan_is_written(kit),
            Call::Assemble => inputs::text_is_assembled(kit),
            Call::List => inputs::plan_is_listed(kit),
            Call::Upgrade => inputs::plan_is_upgraded(kit),
            Call::ReadAnswers => inputs::answers_are_read(kit),
            Call::Expand => inputs::lines_are_expanded(kit),
            Call::ReadWhole => inputs::source_is_read(kit),
            Call::RunBench => inputs::code_is_run(kit),
            Call::MakeStepper => stepper_is_made(kit),
            Call::KeepDrive => drive_is_kept(kit),
            Call::KeepStepper => stepper_is_kept(kit),
            Call::Answer => answer_is_taken(kit),
            Call::Command => command_is_taken(kit),
            Call::CheckText => text_is_checked(kit),
            Call::CheckInput => plan_is_checked(kit),
            Call::ReadText => plans_are_checked(kit),
        }
    }
}

// The plan, judged for the assembly: by its text, by tables that are there, and by a text that is
// kept.

pub fn text_is_checked(kit: &Kit<'_>) -> Result<bool, AllocError> {
    let mut said = VecSink::new(kit.alloc);
    let judged = check_text(kit.alloc, CUP.as_bytes(), PlanInput::Text(TEXT), &mut said);
    is_accepted(&judged, &said.into_bytes())
}

pub fn plan_is_checked(kit: &Kit<'_>) -> Result<bool, AllocError> {
    let cells = PlainCells::new(&kit.assembly);
    let mut said = VecSink::new(kit.alloc);
    let judged = check_input(kit.alloc, &cells, PlanInput::Text(TEXT), &mut said);
    is_accepted(&judged, &said.into_bytes())
}

pub fn plans_are_checked(kit: &Kit<'_>) -> Result<bool, AllocError> {
    let read = ReadText::new(kit.alloc, Vec::from_slice(kit.alloc, CUP.as_bytes())?)?;
    let mut said = VecSink::new(kit.alloc);
    let judged = read.check(kit.alloc, PlanInput::Container(kit.bytes), &mut said);
    is_accepted(&judged, &said.into_bytes())
}

/// Whether the plan is accepted. What is said takes memory too, and nothing is said where other
/// memory is wanting.
fn is_accepted(judged: &Result<Status, Stop<'_>>, said: &[u8]) -> Result<bool, AllocError> {
    match judged {
        Ok(status) => {
            let line = b"accepted cost 18 budget 18 looks 6\n";
            Ok(*status == Status::Done && said == line.as_slice())
        }
        Err(Stop::Fault(Fault::Write(_))) => Err(AllocError),
        Err(Stop::Fault(Fault::Memory)) => {
            if said.is_empty() {
                Err(AllocError)
            } else {
                Ok(false)
            }
        }
        Err(_) => Ok(false),
    }
}

// What the calls are made with.

/// An assembly, and a plan for it with its container.
#[derive(Drop)]
pub struct Kit<'a> {
    pub alloc: Global,
    pub assembly: Assembly,
    pub bytes: &'a [u8],
    pub container: Container<'a>,
    pub plan: Plan,
}

impl<'a> Kit<'a> {
    /// The cup, and the plan of a container.
    pub fn new(alloc: Global, bytes: &'a [u8]) -> Result<Kit<'a>, AllocError> {
        let Ok(assembly) = Assembly::read(alloc, CUP.as_bytes()) else {
            return Err(AllocError);
        };
        let Ok(container) = Container::parse(bytes) else {
            return Err(AllocError);
        };
        let plan = Plan::of(alloc, &container)?;
        Ok(Kit {
            alloc,
            assembly,
            bytes,
            container,
            plan,
        })
    }
}

// A stepper, and the calls by which it takes an answer.

pub fn stepper_is_made(kit: &Kit<'_>) -> Result<bool, AllocError> {
    let cells = PlainCells::new(&kit.assembly);
    let Ok(accepted) = accept(&kit.container, &cells) else {
        return Ok(false);
    };
    let stepper = Stepper::new(kit.alloc, &accepted)?;
    Ok(stepper.steps() == 0 && !stepper.ended())
}

pub fn drive_is_kept(kit: &Kit<'_>) -> Result<bool, AllocError> {
    let cells = PlainCells::new(&kit.assembly);
    let Ok(accepted) = accept(&kit.container, &cells) else {
        return Ok(false);
    };
    let drive = OwnedDrive::new(kit.alloc, &accepted)?;
    Ok(drive.moves() == 0)
}

pub fn stepper_is_kept(kit: &Kit<'_>) -> Result<bool, AllocError> {
    let cells = PlainCells::new(&kit.assembly);
    let Ok(accepted) = accept(&kit.container, &cells) else {
        return Ok(false);
    };
    let mut stepper = OwnedStepper::new(kit.alloc, &accepted)?;
    let mut room = [0u8; 16];
    let mut text = Cursor::new(room.as_mut_slice());
    let taken = stepper.command(b"forward", &mut Writing::new(&mut text));
    Ok(taken == Ok(true) && text.position() == 14)
}

pub fn answer_is_taken(kit: &Kit<'_>) -> Result<bool, AllocError> {
    is_answered(kit, Way::Answer)
}

pub fn command_is_taken(kit: &Kit<'_>) -> Result<bool, AllocError> {
    is_answered(kit, Way::Command)
}

/// How a question is answered.
#[derive(Clone, Copy)]
enum Way {
    Answer,
    Command,
}

/// Whether the plan's question is answered. Where that wants memory the stepper stands where it
/// stood, and takes the answer when it is given again.
fn is_answered(kit: &Kit<'_>, way: Way) -> Result<bool, AllocError> {
    let cells = PlainCells::new(&kit.assembly);
    let Ok(accepted) = accept(&kit.container, &cells) else {
        return Ok(false);
    };
    let mut stepper = Stepper::new(kit.alloc, &accepted)?;
    if stepper.forward().is_err() || stepper.forward().is_err() || !is_asked(&stepper) {
        return Ok(false);
    }
    let is_taken = match answer(&mut stepper, way) {
        Err(AllocError) => is_asked(&stepper) && answer(&mut stepper, way)?,
        Ok(is_taken) => is_taken,
    };
    Ok(is_taken && stepper.steps() == 3 && stepper.asks().is_none())
}

/// Whether a stepper stands at the question, which comes after two steps.
fn is_asked(stepper: &Stepper<'_>) -> bool {
    stepper.steps() == 2 && stepper.asks() == Some((0, 2))
}

/// Answers the question with 1; whether that is taken.
fn answer(stepper: &mut Stepper<'_>, way: Way) -> Result<bool, AllocError> {
    match way {
        Way::Answer => match stepper.answer(1) {
            Ok(()) => Ok(true),
            Err(StepRefusal::Memory) => Err(AllocError),
            Err(_) => Ok(false),
        },
        Way::Command => answer_by_command(stepper),
    }
}

/// The same by a command; whether what it puts is right. Nothing is put where memory is wanting.
fn answer_by_command(stepper: &mut Stepper<'_>) -> Result<bool, AllocError> {
    let mut room = [0u8; 16];
    let mut text = Cursor::new(room.as_mut_slice());
    let taken = stepper.command(b"answer 1", &mut Writing::new(&mut text));
    let size = text.position();
    if taken == Err(StepFault::Memory) && size == 0 {
        return Err(AllocError);
    }
    Ok(taken == Ok(true) && size == 14 && room.starts_with(b"after 3 steps\n"))
}
