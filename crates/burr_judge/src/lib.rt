//! Judges plans and runs them, from bytes to what is printed. Each command of `tasks` takes the bytes of its
//! inputs and a sink, and returns its status, or why it stopped; `report` writes a refusal.
//!
//! ```text
//! let done = judge_text(alloc, Task::Check, text, container, &[], &mut sink);
//! let status = report(done, &mut sink)?;
//! ```
#![tactic(auto)]

mod commands;
mod dialogue;
mod drive;
mod fault;
mod judging;
mod laws;
mod plan_input;
mod read_text;
mod refused;
mod status;
mod stop;
mod tasks;

pub use commands::{OwnedStepper, StepFault};
pub use dialogue::{CommandHandler, LineEnd, MAX_LINE, answer_commands};
pub use fault::{Fault, put_fault};
pub use judging::{judge_plan, read_assembly, read_tables};
pub use laws::{a_dialogue_tells_of_its_run, a_line_has_at_most_8192_bytes};
pub use plan_input::PlanInput;
pub use read_text::ReadText;
pub use refused::Refused;
pub use status::Status;
pub use stop::{Stop, report};
pub use tasks::{
    Task, check_input, check_plan, check_text, drive_text, judge_text, open_drive, open_stepper,
    step_text, try_plan,
};
