//! Plans as texts: what a plan text stands for, its faults, and the listing of a container, which
//! is the text of its plan.
//!
//! # Promised
//! The definitions of plan texts, in both versions:
//!
//! - A text stands for one plan at most (`a_text_has_one_plan`), and that plan is within the format
//!   (`a_text_stands_for_a_plan_within_the_format`).
//! - A text has a plan or a first fault, never both and never neither, and one fault alone, at one
//!   of its lines or the one after the last (`a_text_has_a_fault_or_a_plan`). What stands where is
//!   said line by line by the machine of `specs/Rules/Faults`; names in code are judged last, when
//!   all lines are right.
//! - A plan has one listing (`a_plan_has_one_listing`), and that of a plan within the format stands
//!   for that plan (`a_listing_stands_for_its_plan`), so for no other, and has no fault.
//! - What the lines of a text are judged to be is what the text is
//!   (`a_judged_text_is_of_its_source`).
//!
//! The calls take memory, and answer `AllocError` where that is refused:
//!
//! - `list` gives exactly the listing of a container's plan, of either version. Each instruction is
//!   listed as itself, but where a label stands inside it, or where it names a label or a procedure
//!   that is not there: then its bytes are listed, one by one.
//! - `list_with_places` gives exactly that listing with a comment before each line of code that
//!   tells its procedure and its position. Comments are lines that are skipped, so it has the
//!   listing's lines.
//!
//! `bare_instr` gives the instruction that a word alone is, exactly where the definitions have one.
//!
//! # Tested only
//! - That the definitions say what is meant is tested by worked rows that are computed: the texts
//!   of three plans, their code bytes, 46 faults, and a label within an instruction.
#![tactic(auto)]

mod code;
mod frames;
mod laws;
mod listing;
mod numbers;

pub use code::bare_instr;
pub use laws::{
    a_judged_text_is_of_its_source, a_listing_stands_for_its_plan, a_plan_has_one_listing,
    a_text_has_a_fault_or_a_plan, a_text_has_one_plan, a_text_stands_for_a_plan_within_the_format,
};
pub use listing::{list, list_with_places};
