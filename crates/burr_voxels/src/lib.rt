//! The cubic grid: cells, directions, the turns of a cube, and shapes made of cells.
//!
//! # Promised
//! - The names, the numbers and the units of `Direction` and `Orientation` are exactly those of the
//!   definitions. `Direction::of`, `named`, `Orientation::of` and `parse` answer None for any
//!   other; `parse` finds exactly the 24 turns.
//! - `Direction::along` asks for units within 1,000,000.
//! - `turn` of an `Orientation` takes a cell where the images of the axes say, and no cell farther
//!   out. It asks for coordinates within 1,000,000.
//! - `Cell::is_ahead_of` says exactly whether a cell lies a whole number of units, at least one,
//!   from another along a direction: all the way out, not at the first unit alone.
//! - `meets` says exactly whether one of some cells, displaced, has one of others so ahead of it,
//!   and `overlap_at` whether one of them, displaced, is one of the others. Both ask for cells
//!   within 79 of the origin and a displacement within 512.
//! - A group that overlaps others at some shift isn't free (`a_group_that_overlaps_is_not_free`).
#![tactic(auto)]

mod cell;
mod direction;
mod laws;

pub use cell::{Cell, Cells, Shape, meets, overlap_at};
pub use direction::{Direction, Orientation};
pub use laws::a_group_that_overlaps_is_not_free;
