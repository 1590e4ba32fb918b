//! Plans as texts: a text is assembled to a container, and a container is listed as a text.
//!
//! # Promised
//! - `assemble` is Ok only for a text that stands for a plan, and then gives exactly that plan's
//!   container (`IsAssembled`). Else its fault is the text's first fault, P1 to P5 at its line, or
//!   `Memory` where memory was refused (`IsTextFault`).
//! - Since a text has a plan or a first fault and never both (by the laws of burr_plantext), it
//!   refuses exactly the texts that stand for no plan, but for a want of memory.
//! - The listing of a container is assembled to that container and to no other
//!   (`a_listing_assembles_to_its_container`).
//! - Of a text that stands for a plan `source_map` gives each part of the plan, in the order of the
//!   text, with the number of its line (`IsSourceMap`). It takes memory, and answers `AllocError`
//!   where that is refused.
//!
//! # Tested only
//! - That `assemble` does what is meant is tested by the printed plans and their bytes, and by each
//!   fault at each place where the rules set faults apart.
#![tactic(auto)]

mod fault;
mod laws;
mod source_maps;
mod text;

pub use burr_plantext::{list, list_with_places};
pub use fault::AsmFault;
pub use laws::a_listing_assembles_to_its_container;
pub use source_maps::{PlanPart, source_map};
pub use text::assemble;
