//! Assemblies of a burr and their text: named shapes, drawn layer by layer, and the pieces that are
//! made of them, each turned and put in its place.
//!
//! # Promised
//! - An assembly is a name; 1 to 32 shapes with distinct names, each a drawing of 1 to 512 cells
//!   with sides of 1 to 16; and 2 to 32 pieces with distinct names, each of one of these shapes,
//!   turned by one of the 24 turns, at a position within 64 of the origin. No cell is at home in
//!   two pieces.
//! - `Assembly::read` is Ok only for the text of an assembly, and then with that assembly. Else it
//!   names the text's first fault, A1 to A8 at a line, A8 with two pieces, or answers `Memory`
//!   where memory was refused.
//! - The first fault is on the first line that is faulty after what the lines before it have been,
//!   and on it the first fault in the order of docs/FORMATS.md.
//! - `Assembly::write` gives the one text of an assembly. It takes memory, and answers `AllocError`
//!   where that is refused.
//! - `name`, `piece_count` and `piece_name` give the parts of an assembly, and `cells` a piece's
//!   home cells. `piece_name` and `cells` ask for one of the assembly's pieces.
//! - The order of a piece's cells is: its shape's cells in drawn order (layers upwards, in each its
//!   rows, in each x rising), each turned, and then moved by the piece's position.
//! - The function `piece_name` gives of a text the name that the reader would, and an empty name
//!   where the text has no such piece's line. Where a text has fault A8, that is the name of the
//!   piece that the fault means (`a_piece_is_named_in_its_text`).
//! - A text has one assembly or one first fault, never both and never neither
//!   (`a_text_has_one_assembly`, `a_text_has_a_fault_or_an_assembly`).
//! - Reading the one text of an assembly gives the assembly back, and writing what was read gives
//!   the text back, where memory is not refused (`texts_and_assemblies_give_each_other_back`).
//! - A shape's box has the sides of its drawing, and every cell lies in it
//!   (`a_drawing_lies_in_its_box`). No two cells of a piece lie more than 15 a coordinate apart
//!   (`a_piece_is_no_larger_than_its_drawing`).
#![tactic(auto)]

mod assembly;
mod fault;
mod laws;
mod occupancy;
mod piece;
mod text;

pub use assembly::Assembly;
pub use fault::AssemblyFault;
pub use laws::{
    a_drawing_lies_in_its_box, a_piece_is_named_in_its_text, a_piece_is_no_larger_than_its_drawing,
    a_text_has_a_fault_or_an_assembly, a_text_has_one_assembly,
    texts_and_assemblies_give_each_other_back,
};
pub use text::piece_name;
