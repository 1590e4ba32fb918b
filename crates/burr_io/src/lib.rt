//! Sources that give bytes and sinks that take them, with what a contract knows of those bytes. `Reading` and
//! `Writing` are a source and a sink over a reader and a writer; `LineWriter` holds back lines, and `VecSink` keeps
//! all in memory.
//!
//! ```text
//! let mut sink: LineWriter<_, 4096> = LineWriter::new(Writing::new(stdout));
//! put_words(&[b"after", b"3", b"steps"], &mut sink)?;
//! sink.flush()?;
//! ```
#![tactic(auto)]

mod line_writer;
mod reading;
mod sink;
mod writing;

pub use line_writer::{LineWriter, last_line_end};
pub use reading::{Reading, Source};
pub use sink::{IoFailed, Sink, WriteFault};
pub use writing::{VecSink, Writing, put_all, put_number, put_words};
