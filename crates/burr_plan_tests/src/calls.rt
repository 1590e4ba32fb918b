//! Calls whose contracts no test needs: here they end, and tests are proved sooner.

use crate::tables::lines_of;
use burr_assembly::Assembly;
use burr_blocking::{CellTables, PlainCells, RowTables};
use burr_container::Container;
use burr_runs::upgrade;
use std::alloc::Global;
use std::process::Abort;

/// The assembly of a text, in which `/` may stand for a line end.
pub fn assembly_of(rt: &impl Abort, alloc: Global, text: &str) -> Assembly {
    let text = lines_of(rt, alloc, text);
    Assembly::read(alloc, text.as_bytes()).expect(rt, "an assembly")
}

/// The container with these bytes.
pub fn container_of<'a>(rt: &impl Abort, bytes: &'a [u8]) -> Container<'a> {
    Container::parse(bytes).expect(rt, "a container")
}

/// What answers for an assembly by its cells.
pub fn cells_of(assembly: &Assembly) -> PlainCells<'_> {
    PlainCells::new(assembly)
}

/// What answers for an assembly by tables.
pub fn tables_of<'a>(rt: &impl Abort, alloc: Global, assembly: &'a Assembly) -> CellTables<'a> {
    CellTables::build(alloc, assembly).expect(rt, "tables")
}

/// What answers for an assembly by rows of bits.
pub fn rows_of<'a>(rt: &impl Abort, alloc: Global, assembly: &'a Assembly) -> RowTables<'a> {
    RowTables::build(alloc, assembly).expect(rt, "rows")
}

/// The container of version 2 of a container's plan.
pub fn upgraded(rt: &impl Abort, alloc: Global, bytes: &[u8]) -> Vec<u8> {
    upgrade(alloc, &container_of(rt, bytes)).expect(rt, "memory")
}
