//! Plans of sheets: the text of a plan without loops and questions whose run has the move lines of
//! a sheet. The plan is judged and run before it is handed back.
//!
//! # Promised
//! - The text that `plan_of_sheet` gives is the listing of a plan within the format that is well
//!   framed for the assembly. Without answers its run is safe and takes all pieces apart, and the
//!   sheet of that run is exactly the move lines of the sheet that was given, and then the run's
//!   levels.
//! - At `Line` the move lines are those of no motions: those before the line that is named, the
//!   first faulty one, are lines of motions, and with it no longer. These move lines are the lines
//!   of the sheet before the first that begins `levels ` (`move_lines_stand_before_levels`).
//! - Its other faults are `TooLong` where the code has more than 61,425 bytes, `Refused` with the
//!   container, its listing, the refusal and the sheet's line, `Differs`, and `Memory`, since it
//!   takes memory.
//! - Of how the plan is drafted nothing is trusted: the text is handed back only where the plan was
//!   accepted and its run gave these lines. That a plan is found wherever there is one is not
//!   promised.
//!
//! # Tested only
//! - No contract says when `TooLong`, `Refused` and `Differs` come, or what is wrong with a line
//!   (`LineFault::of`).
#![tactic(auto)]

mod check;
mod draft;
mod laws;
mod lines;
mod situation;

pub use check::{RefusedDraft, SheetFault, plan_of_sheet};
pub use laws::move_lines_stand_before_levels;
pub use lines::LineFault;
