//! The binary container of plans: owned plans and their bytes, and a container read in place.
//!
//! # Promised
//! All of this holds of plans of both versions. The version is part of a plan, so bytes of one
//! version are no plan's of the other.
//!
//! - `Plan::fits` is true exactly of plans within the format. `write` asks for a plan that fits,
//!   and gives exactly its bytes. It takes memory, and answers `AllocError` where that is refused.
//! - `Container::parse` is Ok exactly for the bytes of a plan within the format. Of other bytes it
//!   names the first fault, C1 to C6 at a position; a fault tells its code and its position
//!   (`code_and_position`).
//! - Each plan has one spelling, none begins another, and bytes have one first fault or are one
//!   plan's (`containers_are_unique`). A container is of one plan (`a_container_is_of_one_plan`),
//!   which `Plan::of` gives: it takes memory, and answers `AllocError` where that is refused.
//! - The readers of a `Container` (`header`, `proc_count`, `params`, `results`, `label_count`,
//!   `label`, `frame`, `exit`, `code`) give that plan's parts. `procedure` lends a procedure, a
//!   `ProcedureRef`, whose own readers give the same.
//! - The readers of `FrameRef` and `ExitRef` give the fields of a frame, its forms over symbols. A
//!   frame has eight slots with true ranges, at most 4 guards, 8 operands and 32 pieces, and the
//!   numbers of its forms are small. An exit frame has at most 4 parameters, those of its
//!   procedure, at most 2 results with true ranges, 4 guards and 32 pieces; one of a plan of
//!   version 1 has no results and no guards.
//! - All these readers ask for procedures, labels, guards, operands, pieces and slots that are
//!   there. They are None where a procedure has no exit frame, where a slot is not live, and where
//!   a piece is apart.
//! - `upgrade` gives the container of version 2 whose plan has the fields of the old one, with no
//!   results and no guards of exit frames; of a container of version 2 it gives its own bytes. It
//!   takes memory, and answers `AllocError` where that is refused.
//! - A plan of version 1 has no results and no guards of exit frames, and is within the format in
//!   version 2 too; one of version 2 stays what it is (`upgrading_adds_nothing`).
#![tactic(auto)]

mod container;
mod fault;
mod fitting;
mod frame_ref;
mod label_table;
mod laws;
mod layout;
mod list_readers;
mod lists;
mod plan;
mod procedure_ref;
mod reading;
mod restoring;
mod writing;

pub use container::{Container, Header};
pub use fault::ContainerFault;
pub use frame_ref::{ExitRef, FormOffset, FrameRef};
pub use laws::{a_container_is_of_one_plan, containers_are_unique, upgrading_adds_nothing};
pub use plan::{ExitFrame, Frame, Place, Plan, PlanForm, Procedure};
pub use procedure_ref::ProcedureRef;
pub use restoring::upgrade;
pub use writing::write;
