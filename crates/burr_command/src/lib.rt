//! Reads the command line. `request_of` returns a job, which is the one that the words ask for by
//! `specs/Asking`, or a reply to be printed.
//!
//! ```text
//! let words = ["burr", "list", "--places", "cup.bpln"];    // a Vec of String
//! request_of(alloc, &words)?    // Request::Job(Job::List { plan: "cup.bpln", places: true })
//! ```
//!
//! Only tests say which words get a reply, and what it says.
#![tactic(auto)]

mod command;
mod job;

pub use job::{Job, Reply, Request, request_of};
