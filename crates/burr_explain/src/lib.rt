//! What the lines mean that burr prints: an explanation for each word that names one.
//!
//! # Promised
//! - `explanation_of` gives an explanation exactly where the line's key, its word in lower case, is
//!   one of the known words in lower case, and then one with that word, number or name; else it
//!   gives None. So it finds one exactly for the words that docs/FAULTS.md has, and for lines with
//!   these words.
//! - Each line has exactly one key (`each_line_has_one_key`).
//! - `put_explanation` writes an explanation's heading and its parts, each as the one text that it
//!   is, in the layout of docs/FAULTS.md. Where a text breaks its lines, and the blanks before an
//!   example's lines, are the text's own. It answers `WriteFault` where the sink failed, which has
//!   then taken a front.
//!
//! What its texts say is not proved; `scripts/check-faults` compares docs/FAULTS.md with it.
//!
//! # Tested only
//! - No contract says whether a heading is that of a refusal, of a trap or of another line.
#![tactic(auto)]

mod assembly;
mod container;
mod explanation;
mod laws;
mod output;
mod plan_text;
mod rules;
mod stepper;
mod traps;

pub use explanation::{Explanation, Subject, explanation_of, put_explanation};
pub use laws::each_line_has_one_key;
