//! Runs of accepted plans: step by step, forwards and backwards, and move by move, forwards alone.
//!
//! # Promised
//! A `Stepper`:
//!
//! - After `new`, and after each of `forward`, `over`, `until`, `answer` and `back`, the stepper
//!   stands where its number of steps, with the answers that these took, leads from the start of
//!   the accepted plan's run. No step is made beyond the budget.
//! - Each of these calls comes to exactly what its command says, and is refused exactly where that
//!   says: `forward`, `over` and `until` by S1 and S2, `answer` by S1 and S3, and `back` by S4.
//!   After a refusal nothing has changed. `until` asks for a label that is there (`has_label`).
//! - `new` takes memory, and answers `AllocError` where that is refused. Of the others `answer`
//!   alone takes memory; it answers `Memory` where that is refused, and then nothing has changed
//!   either.
//! - `asks`, `ended`, `steps` and `has_label` say exactly what holds.
//! - `show` puts exactly the state's text. It answers `WriteFault` where the sink failed, which has
//!   then taken a front of it.
//! - `pause` and `resume` let a stepper lie and go on with it where it stood; `resume` asks for a
//!   run of this program on this assembly that was paused. `keep` gives copies of both; it takes
//!   memory, and answers `AllocError` where that is refused.
//!
//! A `Drive` stands on the run of the accepted plan with the answers that it took, at rest: before
//! a motion or a question, or at the end.
//!
//! - `next` makes and tells exactly the next move; or it tells by a `Halt` exactly the question or
//!   the end at which the run halts, and then nothing changes.
//! - `answer` is taken exactly where the question of that number is open and the answer is in its
//!   range. Else it gives false, and nothing has changed.
//! - `go_to` makes the moves up to that of a number, and asks for one that is not below `moves`.
//!   Where the run halts before that move, it makes the moves up to there and tells the `Halt`, and
//!   the run stands there.
//! - `new`, `halt` and `moves` say exactly what holds. `show` does what that of a stepper does.
//! - A `OwnedDrive`, which keeps its program and its assembly and borrows nothing, promises the same
//!   of its `new`, `next`, `go_to`, `answer` and `moves`. Its `new` takes memory, and answers
//!   `AllocError` where that is refused; a `Drive` takes none.
//!
//! Laws of the definitions:
//!
//! - Commands lead to one state, that of the steps and answers that they fix
//!   (`commands_lead_to_one_state`). On an accepted plan each command comes to something
//!   (`commands_come_to_something`); when it is refused is a law too (`commands_are_refused_so`).
//! - Going back forgets steps and their answers alone (`going_back_forgets_steps`), and undoing
//!   records is going back (`undoing_is_going_back`).
//! - No line of a command has more than 64 bytes (`lines_of_commands_are_short`,
//!   `drive_lines_are_short`).
//! - A move has all motions that follow on each other with the same group, tray and direction, up
//!   to a question or a way out (`moves_are_joined_motions`).
//! - The moves from one answer to the next are those of the run, in their order
//!   (`moves_are_those_of_the_run`). With more answers the moves told so far stay, and others
//!   follow them (`moves_go_on_with_more_answers`).
//! - However a drive is called from its start on, it makes the moves of the run with the answers
//!   that it took, and tells of them, in their order, each once (`a_drive_tells_of_its_run`).
#![tactic(auto)]

mod drive;
mod laws;
mod owned_drive;
mod records;
mod state_text;
mod stepper;

pub use drive::{Drive, Halt, Move, Question};
pub use laws::{
    a_drive_tells_of_its_run, commands_are_refused_so, commands_come_to_something,
    commands_lead_to_one_state, drive_lines_are_short, going_back_forgets_steps,
    lines_of_commands_are_short, moves_are_joined_motions, moves_are_those_of_the_run,
    moves_go_on_with_more_answers, undoing_is_going_back,
};
pub use owned_drive::OwnedDrive;
pub use stepper::{Paused, StepRefusal, Stepper};
