//! Runs of plans on the bench from readers to writers: what is read, and what is written for it.
//!
//! # Promised
//! `bench_text` runs bare code from end to end. For every input, and for every reader and writer
//! that say their bytes:
//!
//! - It takes memory. Where no call of the reader fails, the input has at most 16,777,216 bytes and
//!   no memory is refused, it writes exactly one of three: `refused input` where the last line
//!   isn't a code line, else the line of the text's first fault where it has one, else the sheet of
//!   the run of that code on the voxel bench, without answers and with a budget of 1,000,000 steps.
//!   The line of fault A8 has the names of the pieces.
//! - It says how that run closed, `Refused` for the first two. An input is a text and code in one
//!   way, and has one output (`an_input_has_one_output`).
//! - Otherwise it writes nothing and leaves the writer as it was: it answers `Read` where a call of
//!   the reader failed, `TooLong` where the input is longer, and `Memory` where memory was refused.
//!   After `Read`, as after `Memory`, the reader has given some bytes, and has what is left after
//!   them.
//! - After `Write` a call of the writer has failed, and the bytes that it took are a front of that
//!   line or sheet.
//! - The voxel bench is a definition of burr_state. The code decides it by tables of displacements,
//!   one for each two pieces, and counts and writes as it goes.
//!
//! The other calls:
//!
//! - `try_plan` asks for a bench at its start, of any program, accepted or not, and takes any
//!   answers. It writes exactly the sheet of the voxel bench's run with the plan's budget and these
//!   answers, and says how that run closed. The program and the assembly stay. `bench_text` runs
//!   its code in this way.
//!   - Where it leaves the bench is said by calls (`specs/Views/AfterRuns`): with these answers,
//!     calls lead from the start to a state at which the run closes as the answer says, and there
//!     the bench stands; a trap has then changed the mode alone.
//!   - After `WriteFault` the writer has failed and took a front of the sheet, and the bench stands
//!     at a state to which such calls lead, or at that last one.
//! - `run_plan` does so for an `Accepted`, whose run is safe: no trap, within the budget, and apart
//!   or waiting at its end. At `WriteFault` the sink took a front of the sheet.
//! - `check` writes exactly one line. Where the plan is accepted, that is
//!   `accepted cost C budget B looks N` with main's cost, the plan's budget and the looks of the
//!   judgement, and it answers true. Else it is the refusal's line with its rule, procedure and
//!   position, the names of the two pieces and the point's numbers where there are any, and it
//!   answers false. After `WriteFault` a call of the writer has failed, and it has taken a front of
//!   that line.
//! - `read_answers` is Ok only for the lines of answers, which are numbers of 32 bits, and then
//!   with these. Else it names the first faulty line, counted from 1, or answers `Memory` where
//!   memory was refused. A text is read in one way (`answers_are_read_in_one_way`).
//! - `read_whole` takes memory. It answers `Read`, `TooLong` above 16,777,216 bytes, or `Memory`;
//!   the source has given what was read.
//! - The lines of refusals (`put_container_refusal` and its like) answer `WriteFault` where the sink
//!   failed, which has then taken a front.
//!
//! What a plan is to the verifier and to the bench says nothing of its version. So, of the
//! container of version 2 that `upgrade` of burr_container gives:
//!
//! - The judgement of the upgraded plan is that of the old one, for whatever assembly: accepted
//!   exactly where that is, else refused by the same rule at the same place, with the same pieces
//!   and point (`an_upgraded_plan_is_judged_as_before`).
//! - For every list of answers its run on the voxel bench is the same run: the same motions, steps
//!   and closing (`an_upgraded_plan_runs_as_before`). So where a plan of version 1 is accepted, the
//!   upgraded one is accepted, and the same answers give the same sheet.
#![tactic(auto)]

mod input;
mod laws;
mod lines;
mod plan_refusal;
mod runs;
mod text_runs;

pub use burr_container::upgrade;
pub use input::{AnswersFault, BenchFault, LIMIT, read_answers, read_whole};
pub use laws::{
    an_input_has_one_output, an_upgraded_plan_is_judged_as_before, an_upgraded_plan_runs_as_before,
    answers_are_read_in_one_way,
};
pub use lines::{put_accepted, put_clash, put_container_refusal, put_place_line};
pub use plan_refusal::PlanRefusal;
pub use runs::{Observer, try_observed, try_plan};
pub use text_runs::{Outcome, bench_text, check, run_plan};
