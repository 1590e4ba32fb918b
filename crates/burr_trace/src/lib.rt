//! The runs of a plan as its author looks at them: what held whenever a run came to a label, in the
//! words of frames, and for each label the frame that all of these agree with. Nothing here is
//! trusted: what is accepted is accepted by the verifier alone.
//!
//! # Promised
//! - What `Sightings::fill` gives is the plan text of an `Unframed` of burr_lines, but any lines may
//!   stand in place of a line that ends by the word `auto` (`IsFilledIn` of burr_lines), since
//!   `Unframed::with` of burr_lines makes it.
//! - Beyond that it promises nothing but safety. Memory is taken by `Labels::of`, `Arrivals::close`,
//!   `trace_of`, `Sightings::new` and its `add_run` and `fill`, and by `text`, `note` and `ask` of
//!   `Questions`; they answer `AllocError` where it is refused.
//!
//! # Tested only
//! - No contract says what it tells of each label of a run (`Labels`, `Arrivals`, `Sightings`,
//!   `trace_of`), or which lists of answers are tried (`Questions`).
//! - Nor does one say which frames it finds, and so what is put in place of `auto`. So no must-fail
//!   edit stands in the gate.
#![tactic(auto)]

mod arrivals;
mod fit;
mod frame;
mod needs;
mod questions;
mod sightings;
mod trace;

pub use arrivals::{Arrivals, Labels};
pub use questions::{MOST_RUNS, Question, Questions};
pub use sightings::{Filled, Sightings};
pub use trace::trace_of;
