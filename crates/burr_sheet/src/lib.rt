//! Move sheets: the motions of a run in longest lines, the levels, and how the run closed; and the
//! motions whose lines a text is. The names of a group's pieces.
//!
//! # Promised
//! - The sheet is the motions of a run in longest lines: its lines are as long as may be
//!   (`lines_are_longest`). A sheet closes in one line (`a_sheet_closes_once`), and no line that
//!   says how a run closed stands before the last.
//! - `Sheet::new`, `motion` and `close` put exactly what is still to be written, whatever follows:
//!   `motion` what is closed by the motion that it is given, and `close` the rest. `motion` asks
//!   for fewer than 1,000,000 motions so far, and for at most 31 outs with this one.
//! - They answer `WriteFault` where the sink failed, or where the sheet had failed before. The sink
//!   has then taken a front of what was to be put, of `motion` a front of what the motion closes,
//!   and the sheet has failed for good: each later call answers `WriteFault`, whatever the sink,
//!   and puts nothing.
//! - `put_names` puts the names of a group's pieces. It answers `WriteFault` where the sink failed,
//!   which has then taken a front of them.
//! - `expand` gives motions exactly where a text is the move lines of motions of the assembly's
//!   pieces, at most 1,000,000, and then these; for other texts it gives None. It takes memory, and
//!   answers `AllocError` where that is refused.
//! - A text is the lines of one list of motions at most (`lines_are_of_one_list_of_motions`), and
//!   the move lines of each run are such a text (`move_lines_of_runs_are_expanded`).
#![tactic(auto)]

mod laws;
mod motion_lines;
mod sheet;

pub use burr_state::Closing;
pub use laws::{
    a_sheet_closes_once, lines_are_longest, lines_are_of_one_list_of_motions,
    move_lines_of_runs_are_expanded,
};
pub use motion_lines::expand;
pub use sheet::{GrowingLine, Sheet, put_names};
