//! The rules that a plan has to keep, the verifier's states, and their arrival at a frame.
//!
//! # Promised
//! - A `Rule` has a `number` of 1 to 28, and is printed as `V15`.
//! - `State::of` is exactly what a frame says. `State::at_home` gives exactly the abstract state of
//!   the start; it asks for at most 32 pieces.
//! - Each instruction has a call, as `push`, `sub` and `drop_top`, that gives the verdict of its rule:
//!   the state after it, or the first check that fails; `branch` gives the second state of `down`, at
//!   its label.
//!   - What fails is a `Break`: the rule of the first check that fails, with the pieces and the
//!     first point that it names. After it the state is as it was before.
//!   - `load`, `store` and `down` ask for a slot, and `ask` for a range. `step` and `aside` ask for
//!     at most 4,096 points in the box and a count of looks of at most 2^40.
//! - `step` and `aside` hold whatever `Blocking` answers for the pieces. They count exactly the
//!   looks of docs/VERIFIER.md, also where a rule is broken. A rule has one number of looks, at
//!   most 4,096 times 256, and where control falls out all pairs were looked at, at each point
//!   (`a_rule_has_so_many_looks`).
//! - An instruction has exactly one verdict, for whatever pieces, plan and state
//!   (`an_instruction_has_one_verdict`): so a call that names a broken rule, and where it is
//!   broken, names the only one.
//! - `arrives`, `meets_entry` and `meets_exit` are Ok exactly where a state arrives at a frame, or
//!   meets one. Else they give a `Miss`: the first point at which it does not, or none where the
//!   two differ without regard to points. They hold of every state and every frame that a container
//!   gives, and so does `State::arrive`.
//!   - `arrives` gives the first point of the state, rising, at which ranges, guards, operands,
//!     offsets or the cost fail, or no point where current tray, grip, number of operands or trays
//!     differ, or a live slot is not known.
//!   - `State::arrive` says the same, and gives the frame's state where there is no such point.
//!   - `meets_entry` says the same without the cost.
//!   - `meets_exit` says so of an exit frame, with the values of its parameters and of the results,
//!     which are the topmost operands. The point is the first at which a result's range, a guard or
//!     an offset fails; no point is given where a parameter is not known or there are fewer
//!     operands than results.
#![tactic(auto)]

mod clearing;
mod forms;
mod laws;
mod rule;
mod state;

pub use laws::{a_rule_has_so_many_looks, an_instruction_has_one_verdict};
pub use rule::{Break, Rule};
pub use state::{Miss, State, arrives, meets_entry, meets_exit};
