//! The lines of a plan text, by what each says, the plan's parts by the numbers that the text gives
//! them, texts that tell of lines, and texts that have something in place of `auto`.
//!
//! # Promised
//! - `lines_of` gives the lines of a text with their numbers from 1 on, `numbered_line` one of them, `word` of
//!   `Line` one of its words, and `number_in` the number of 0 to 255 that a word tells, or 0 where it tells
//!   none, as `specs/TextLines.antt` has lines and words.
//! - `Unframed::of` takes a plan text as it is. Something is due in a line `auto` after the line that opens
//!   a procedure or a label, where nothing but empty lines and comments stand between, and in a line that
//!   starts by `plan` and ends by the word `auto` (`IsDueAfter`). `has_auto_at` tells where, and `parts` gives
//!   the lines, with something due in just these (`IsMadeOf`).
//! - `with` puts each text that it is given in place of the line of its place, where something is due there,
//!   and keeps all else (`IsFilledBy`). So what it and `with_blanks` give is the plan text, but any lines may
//!   stand in place of a line that ends by the word `auto` (`IsFilledIn`).
//! - Beyond that it promises nothing but safety. Lines are looked up in `source_map` of burr_asm.
//!   Memory is taken by `lines_of`, by `PlanLines::of` and `with`, by `Report::into_text`, and by `of`,
//!   `with`, `with_blanks` and `parts_of` of `Unframed`; they answer `AllocError` where it is refused.
//!
//! # Tested only
//! - No contract says which line says what (`PlanLines`), the procedure or label that a due frame belongs to,
//!   and which frames say nothing (`Unframed`), what a plan has at a place of its code (`PlanText`), or what is
//!   added to a text (`Shown`, `Report`).
#![tactic(auto)]

mod lines;
mod plan_text;
mod unframed;

pub use burr_asm::PlanPart;
pub use lines::{FramePart, Line, PlanFrame, PlanLines, lines_of, numbered_line};
pub use plan_text::{PlanText, Report, Shown};
pub use unframed::{Due, Part, Unframed};
