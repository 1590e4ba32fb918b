//! Judging plans: which rule refuses a plan, and where.
//!
//! # Promised
//! - `fits_assembly` is Ok exactly where a container's plan has the assembly's name and number of
//!   pieces. Else it gives the refusal V1, which stands at procedure 0 and position 0, without
//!   pieces and without a point.
//! - `verify` is Ok exactly where the plan is well framed for the assembly. It holds on every
//!   container and assembly, with no premise, and takes no memory.
//! - Else it gives a `Refusal`, which names a check that fails while all before it, in the order of
//!   docs/VERIFIER.md, hold: its rule, V1 to V28, its procedure and position, the pieces of V15 and
//!   V16, and the first point.
//! - `verify_counted` says what `verify` says. It asks for a count of 0, and leaves exactly the
//!   looks of the judgement, also after a refusal: at most 4,096 times 256 for each byte of the
//!   plan's code. A plan has one number of looks (`a_plan_has_so_many_looks`).
//! - `accept` gives an `Accepted` exactly where `verify` is Ok, and else the same refusal; so does
//!   `accept_counted`. Every value of that type is of a plan that is well framed for its assembly:
//!   that is a fact of the type.
//! - `Accepted::cost` is the cost of main's first frame, which is within the budget. No run makes
//!   more steps, whatever is answered (`a_run_makes_no_more_steps_than_it_costs` of burr_bench).
//!   `plan`, `assembly` and `blocking` are those that it was made from.
//! - `state_before` gives the state in which the pass over the code comes to an instruction, and
//!   `state_after` the one that falls out of it where its rule holds. Both do so without a look;
//!   where a rule is broken before, they may give any.
//! - `PointState::at` gives the numbers of a state at a point: what the state's forms come to there
//!   (`AreNumbersAt`).
//!
//! Laws of the definitions, for whatever pieces, and for every plan whose labels stand at rising
//! places of its codes, as those of a container do (`a_fitting_plan_is_from_a_container`):
//!
//! - A pass over code has exactly one judgement: nothing is wrong exactly where the code can be cut
//!   into instructions with a state before each, and a refusal names the first check that fails,
//!   after a front that is cut (`a_pass_has_one_judgement`).
//! - The same holds of the whole judgement of a plan: nothing is wrong exactly where it is well
//!   framed, and a refusal names the first check that fails (`a_plan_is_judged_in_one_way`).
#![tactic(auto)]

mod accepting;
mod forming;
mod judging;
mod laws;
mod passing;
mod point_state;
mod refusal;
mod states;

pub use accepting::{Accepted, accept, accept_counted};
pub use judging::{verify, verify_counted};
pub use laws::{
    a_fitting_plan_is_from_a_container, a_pass_has_one_judgement, a_pass_has_so_many_looks,
    a_plan_has_so_many_looks, a_plan_is_judged_in_one_way,
};
pub use point_state::{Offset, PointState, point_of};
pub use refusal::{Refusal, fits_assembly};
pub use states::{state_after, state_before};
