//! Why a plan is refused, for who writes its text: the lines that are at fault, and what was
//! compared there, in numbers at one point. Nothing here is trusted: what is accepted is accepted
//! by the verifier alone.
//!
//! # Promised
//! - `reason_of_refusal`, `reason_of_line` and `expectation_of_line`, its public calls, take memory,
//!   and answer `AllocError` where that is refused. Beyond that only their safety is proved.
//!
//! # Tested only
//! - No contract says which lines it names of a refused plan, or what it says of them. The numbers
//!   that it compares are those that `PointState::at` of burr_verify gives, of the states that
//!   `state_before` and `state_after` give, or of those of a frame.
#![tactic(auto)]

mod expected;
mod pieces;
mod reasons;

pub use burr_lines::PlanText;
pub use expected::expectation_of_line;
pub use reasons::{reason_of_line, reason_of_refusal};
