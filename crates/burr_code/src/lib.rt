//! The instructions of a plan and their bytes, sets of pieces, and the limits of plans.
//!
//! # Promised
//! - `fetch` is Some exactly where an instruction stands, with that instruction and its length; else
//!   None.
//! - `encode` gives exactly an instruction's bytes. It asks for operands in range; it takes memory,
//!   and answers `AllocError` where that is refused.
//! - At most one instruction begins any bytes (`instructions_are_unique`), and each is read back
//!   from its bytes (`instructions_are_read_back`): so `fetch` finds what `encode` was given.
//! - `Labels::new` takes exactly the bytes of 2 to 8 labels, and answers None to any other bytes.
//!   The readers of `Labels` give these labels; `get` answers None where there is no such label.
//! - The limits of plans and of the bench are these numbers (`the_limits_are_these`).
//! - `is_in_set` says exactly which pieces are in a set. It asks for a piece below 32.
//! - The readers of a `Placement` give its tray and its position, for any position. After `move_to`
//!   a place that is not apart is in the tray.
//! - `lies_in`, `all_lie_in`, `is_part_of_tray`, `are_all_apart`, `is_empty_tray` and
//!   `count_in_tray` say of many places exactly what the definition of places says;
//!   `is_part_of_tray` asks for at most 32 places.
//! - `take_aside` does what the definition says: the group is in the other tray, and a piece that
//!   is then alone in one of the two trays is apart. It asks for at most 32 places.
#![tactic(auto)]

mod fetching;
mod instr;
mod labels;
mod laws;
pub mod limits;
mod placement;

pub use fetching::fetch;
pub use instr::{Instr, encode};
pub use labels::Labels;
pub use laws::{instructions_are_read_back, instructions_are_unique, the_limits_are_these};
pub use placement::{
    Placement, all_lie_in, are_all_apart, count_in_tray, is_empty_tray, is_in_set, is_part_of_tray,
    lies_in, take_aside,
};
