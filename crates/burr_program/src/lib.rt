//! What the program burr does with its words, its files and its streams. A command is a file of `commands`.
//!
//! ```text
//! let mut io = Streams { source, sink, errors };
//! let status = run_words(&rt, &words, &mut io);
//! ```
#![tactic(auto)]

mod commands;
mod done;
mod files;
mod laws;
mod notes;
mod program;

pub use laws::each_rule_and_trap_is_explained;
pub use program::{Streams, end_without_words, run_words};
