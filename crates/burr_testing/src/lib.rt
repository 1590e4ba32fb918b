//! What the tests of several crates share: memory that is refused, streams that fail, and the
//! assemblies and plans that many of them are about. What asserts stands with the tests: a library
//! may not end its process.
#![tactic(auto)]

mod memory;
pub mod plans;
mod streams;

pub use memory::{MemoryHog, Outcome, Outcomes, Trial, outcomes_in_want};
pub use streams::{Narrow, Portions, bytes_of};
