//! What all texts share: names, numbers, words, and lines that are cut at their ends.
//!
//! # Promised
//! - `is_name`, `is_word` and `is_number` say exactly whether a text is a name, a word or a number,
//!   as docs/FORMATS.md has them; else they are false.
//! - `integer` gives exactly the number of 32 bits that a text writes, and None exactly where the
//!   text is that of no such number.
//! - `cut_at` gives what stands before the first of a byte in a text and what stands after it, or
//!   None where that byte is not there.
//! - A `Name` is a name. `Name::new` asks for bytes that are one (`is_name`); it takes memory, and
//!   answers `AllocError` where that is refused.
#![tactic(auto)]

mod name;
mod words;

pub use name::{LONGEST_NAME, Name, is_name};
pub use words::{cut_at, integer, is_number, is_word};
