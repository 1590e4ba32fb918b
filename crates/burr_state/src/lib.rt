//! The bench's state: what a bench runs, where its pieces lie, and what each instruction does to
//! it.
//!
//! # Promised
//! What the bench is, is said by definitions (`specs/Rules/Bench`, `Step`, `Run`) of cells, sets of
//! pieces and whole lists. They share nothing with the code but plain data: cells, directions,
//! traps, motions and closings. A state has places, a tray, a grip and activations. An instruction
//! has its traps, in their order, and its effect. A group is free where "for every whole k of at
//! least 1 the group, shifted k units, overlaps nothing of the rest of its tray". A run is a
//! relation with a constructor for each sentence of docs/BENCH.md.
//!
//! The calls:
//!
//! - `Bench` carries out what the definition says of each instruction, with its traps; `step` and
//!   `aside` only where they may be made. It takes an answer exactly where a question is next that
//!   the answer fits. `Checked` and `Machine` of burr_bench hand its calls on.
//! - It lends its state, whose readers give their parts. `question` gives the question for which a
//!   run waits, or None where it waits for none, and `label` where a label stands.
//! - `record` is the record of the step that stands next, and `undo` lays a record over the state,
//!   where that gives a state of the bench's program.
//! - `suspend` keeps where a run stands, and nothing of what is run. `resume` is the bench of a
//!   program that stands there. `rewind` goes back to the start.
//! - `OwnedProgram` is a program that keeps its code, and lends exactly it.
//! - `one_unit_on` asks for an offset within 256 a coordinate.
//!
//! Laws over every instruction and every run:
//!
//! - Each instruction, carried out at any state, has an effect or a trap, and one alone
//!   (`an_instruction_has_one_effect`).
//! - Something stands next at a state, and one thing alone; a call says one thing and leaves one
//!   state (`a_step_has_one_result`). A call that says a step has made one, one that says a trap
//!   changes the mode alone, and any other changes nothing (`a_call_leaves_what_it_tells`).
//! - A run has a result, from each state that did not trap, and it is the only one
//!   (`a_run_has_one_result`). It is a chain of calls, up to where the last of them closes it
//!   (`a_run_is_a_chain_of_calls`). With more answers the steps made so far stay, and others follow
//!   them (`a_run_with_more_answers_goes_on`).
//! - Where a group goes aside, a piece that is then alone in one of the two trays is apart, each
//!   other piece of the group is in the other tray at its offset, and all others are where they
//!   were (`going_aside_parts_lone_pieces`).
//! - Wherever a run of an assembly comes to, the grip lies in the current tray, no two pieces of a
//!   tray overlap, and no tray holds one piece alone (`pieces_never_overlap`, from
//!   `a_step_keeps_pieces_apart`).
//! - Wherever a run comes to, the current tray and those of the pieces are below 32, and each
//!   motion is of some of the pieces in such a tray (`motions_are_of_pieces_in_trays`).
//! - A run makes a motion a step at most, and no more steps than its budget
//!   (`motions_are_within_the_budget`).
//! - A call that tells of a way out has made the pieces one part more, of at most 32, where a part
//!   is a tray in play or a piece that is apart (`parts_are_trays_and_pieces_apart`).
//! - What a step replaced gives back the state before it (`records_go_back`).
//!
//! # Tested only
//! - That the definitions say what is meant is shown by worked rows, which are computed of them
//!   alone (`proofs/WorkedRuns`, `proofs/WorkedSteps`). The runs are of two cubes that come apart,
//!   that block each other at the next unit and three units off, and of a grip of a piece that is
//!   gone. The steps are of each kind, and have each of the seventeen traps.
#![tactic(auto)]

mod activation;
mod bench;
mod effect;
mod laws;
mod program;
mod state;
mod undo;

pub use activation::Suspended;
pub use bench::Bench;
pub use effect::{Closing, Effect, Mode, Motion, Progress, Trap};
pub use laws::{
    a_call_leaves_what_it_tells, a_run_has_one_result, a_run_is_a_chain_of_calls,
    a_run_with_more_answers_goes_on, a_step_has_one_result, a_step_keeps_pieces_apart,
    an_instruction_has_one_effect, going_aside_parts_lone_pieces, motions_are_of_pieces_in_trays,
    motions_are_within_the_budget, parts_are_trays_and_pieces_apart, pieces_never_overlap,
    records_go_back,
};
pub use program::{OwnedProgram, Program};
pub use state::{BenchState, one_unit_on};
pub use undo::Undo;
