//! The benches that run programs on an assembly's pieces, step by step: one that tests each move,
//! and one for accepted plans, which tests none and can go back. That it need not is the soundness
//! of the verifier: a plan that is well framed runs safely.
//!
//! # Promised
//! `Checked`, the bench that tests each move:
//!
//! - `start` is Ok exactly where `fits_assembly` of burr_verify is, and else gives V1. It then runs
//!   the container's plan from its start. `bare` runs bare code, and asks for at most 4,096 bytes
//!   of it.
//! - `step` is the definition's call (`Called`) at each instruction, with an answer or without,
//!   whatever `Blocking` answers for the pieces. Motions, traps, questions and the end are included.
//!   It leaves the code and the assembly as they are. After a trap, 1 to 17, the mode alone has
//!   changed; at a question without a fitting answer nothing has.
//! - After a `step` the definition lays the cells of all pieces of the tray over each other. The
//!   code asks about pairs of a gripped piece and another one. That this decides it rests on an
//!   invariant of `Checked`: no two pieces of a tray overlap. Offsets lie within 256, which is an
//!   invariant too, so each displacement in a question lies within 512.
//!
//! `Machine`, the bench for accepted plans:
//!
//! - `start` takes an `Accepted` to the start of its plan. `step` is the definition's call with a
//!   result that is no trap; it leaves what `Checked::step` leaves.
//! - `step_recorded` does what `step` does, and gives a record exactly where it made a step. `undo`
//!   asks for a record of a step that led here, and takes it back to the machine that it was before
//!   that step, whole.
//! - `rewind` goes back to the start of the same run; it asks that the run is safe from there.
//!   `suspend` and `resume` let a run lie and go on with it where it stood; `resume` asks for a run
//!   of this program on this assembly that was suspended. `keep` gives copies of the assembly and
//!   of the program; it takes memory, and answers `AllocError` where that is refused.
//!
//! The readers of both give their parts of the state: `question` gives the question for which the
//! run waits, and `label` where a label stands, or None where there is no such label. `place` asks
//! for one of the assembly's pieces, `slot` for a slot of 0 to 7.
//!
//! Laws of the definitions:
//!
//! - Of 2 to 32 pieces whose homes don't overlap, each run of a well framed plan, of either version
//!   and with whatever answers, is safe: it meets no trap, never makes more steps than the budget,
//!   and closes apart, or waiting once all answers are used and before the budget is. Such a run
//!   there is (`a_well_framed_plan_runs_safely`).
//!   - Besides, the law needs of the plan what a container promises: labels at rising places, forms
//!     over their frames' own symbols, main without an exit frame.
//!   - It rests on what holds before each step (`specs/Soundness/Invariant`). The running
//!     activation stands for the state of the pass at its pc, at some point. Each caller that waits
//!     has made a call of the procedure that runs above it, at a point at which the forms of the
//!     call's arguments give that procedure's parameters. It stands there for the state that falls
//!     out of its call, with whatever results the exit frame of its callee admits for these
//!     parameters, the pieces lying as that exit frame has them for these results. At `ret` the
//!     callee's own results are admitted in this way.
//! - A bench that runs such a plan meets no trap, at any call, and needs no test at `step` and
//!   `aside`; each state that its calls come to is safe, and before each step what the verifier
//!   knows of the next instruction holds, callers and costs included
//!   (`an_accepted_bench_never_traps`). Each of its steps has a record that takes it back
//!   (`an_accepted_step_is_recorded`).
//! - It makes no more steps than the cost at main's entry frame
//!   (`a_run_makes_no_more_steps_than_it_costs`).
#![tactic(auto)]

mod checked;
mod laws;
mod machine;

pub use burr_state::{
    Bench, Closing, Motion, OwnedProgram, Program, Progress, Suspended, Trap, Undo,
};
pub use checked::Checked;
pub use laws::{
    a_run_makes_no_more_steps_than_it_costs, a_well_framed_plan_runs_safely,
    an_accepted_bench_never_traps, an_accepted_step_is_recorded,
};
pub use machine::Machine;
