//! For each pair of pieces, which displacements of one against the other overlap.
//!
//! # Promised
//! - Each `Blocking`, so `PlainCells`, `CellTables` and `RowTables`, answers exactly for any two
//!   pieces, which are not equal, and every displacement within 512 a coordinate: that is all that
//!   it asks for.
//!   - `blocked(p, q, d)` says whether p, displaced by d from home, overlaps q at home.
//!   - `free(p, q, d, direction)` says whether p, at d plus k units along the direction, overlaps q
//!     for no whole k of at least 1.
//!   - `clears` says whether the two keep clear as a `Query` asks.
//!   - `pair` finds once what queries of two pieces read; `pair_blocked` and `pair_free` ask by it,
//!     with the answers of `blocked` and `free`.
//! - `PlainCells` compares cells, `CellTables` reads tables, and `RowTables` reads rows of bits.
//!   `CellTables::build`, `CellTables::owning`, `RowTables::build` and `RowTables::owning` answer
//!   for the assembly that they were given; they take memory, and answer `AllocError` where that is
//!   refused.
//! - A table has at most 31 values a side: this is an invariant of a private type, and in no public
//!   contract. The same holds of `RowTables`, which keep a row of bits in place of each row of
//!   values.
//! - Each question that is put to a `Looks` has the answer of what it was made over, and adds 1 to
//!   its count. It asks what that asks for, and a count below 2^62. It hands out nothing that could
//!   be asked beside it: a `PreparedPair` answers a `Looks` alone.
//! - To prepare a pair is no look; each question of it is one.
//!
//! # Tested only
//! - A `Looks` asks what it was made over once for each count.
#![tactic(auto)]

mod blocking;
mod cell_tables;
mod extent;
mod row_tables;
mod triangle;

pub use blocking::{Blocking, Looks, PreparedPair, Query};
pub use cell_tables::{CellTables, PlainCells};
pub use row_tables::RowTables;
pub use triangle::translate::Pair;
