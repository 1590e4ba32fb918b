//! Calls on what is read and made: assemblies, plans, answers, lines of a sheet, and sources, which a
//! second call has anew.

use crate::call::Kit;
use burr_asm::{AsmFault, assemble};
use burr_assembly::{Assembly, AssemblyFault};
use burr_blocking::{Blocking, CellTables, RowTables};
use burr_code::{Instr, encode};
use burr_container::{Plan, write};
use burr_io::{Reading, Writing};
use burr_plantext::list;
use burr_runs::{AnswersFault, BenchFault, Outcome, bench_text, read_answers, read_whole, upgrade};
use burr_sheet::expand;
use burr_testing::Portions;
use burr_testing::plans::CUP;
use burr_voxels::{Cell, Direction};
use std::alloc::AllocError;
use std::io::Cursor;

/// The assembly of two cubes, and code that takes one of them out.
const INPUT: &[u8] = b"\
assembly duo
shape cube
layer
#
end
piece A cube +x+y+z 0 0 0
piece B cube +x+y+z 1 0 0
code 100000000112010100
";

/// The sheet of its run.
const SHEET: &[u8] = b"1 t0 A -x 0 out\nlevels 1\napart in 3 steps\n";

pub fn answers_are_read(kit: &Kit<'_>) -> Result<bool, AllocError> {
    match read_answers(kit.alloc, b"1\n2\n3\n4\n5\n6\n7\n8\n-9\n") {
        Ok(answers) => Ok(answers.as_slice() == [1, 2, 3, 4, 5, 6, 7, 8, -9].as_slice()),
        Err(AnswersFault::Memory) => Err(AllocError),
        Err(_) => Ok(false),
    }
}

pub fn lines_are_expanded(kit: &Kit<'_>) -> Result<bool, AllocError> {
    match expand(kit.alloc, &kit.assembly, b"1 t0 A +z 20\n")? {
        Some(motions) => Ok(motions.len() == 20),
        None => Ok(false),
    }
}

pub fn source_is_read(kit: &Kit<'_>) -> Result<bool, AllocError> {
    let mut source = Reading::new(Portions::new(kit.bytes, 40));
    match read_whole(kit.alloc, &mut source) {
        Ok(bytes) => Ok(bytes.as_slice() == kit.bytes),
        Err(BenchFault::Memory) => Err(AllocError),
        Err(_) => Ok(false),
    }
}

/// Nothing is put where memory is wanting.
pub fn code_is_run(kit: &Kit<'_>) -> Result<bool, AllocError> {
    let mut room = [0u8; 64];
    let mut text = Cursor::new(room.as_mut_slice());
    let mut source = Reading::new(Portions::new(INPUT, 40));
    let ended = bench_text(kit.alloc, &mut source, &mut Writing::new(&mut text));
    let size = text.position();
    if ended == Err(BenchFault::Memory) && size == 0 {
        return Err(AllocError);
    }
    Ok(ended == Ok(Outcome::Apart) && size == 42 && room.starts_with(SHEET))
}

// Assemblies and their tables.

/// Where the dot of the cup is at home.
const HOME: Cell = Cell { x: 1, y: 1, z: 1 };

pub fn assembly_is_read(kit: &Kit<'_>) -> Result<bool, AllocError> {
    match Assembly::read(kit.alloc, CUP.as_bytes()) {
        Ok(assembly) => Ok(is_cup(&assembly)),
        Err(AssemblyFault::Memory) => Err(AllocError),
        Err(_) => Ok(false),
    }
}

/// Whether an assembly has a dot in a bowl of 17 cells.
fn is_cup(assembly: &Assembly) -> bool {
    if assembly.piece_count() != 2 {
        return false;
    }
    assembly.cells(0) == [HOME].as_slice() && assembly.cells(1).len() == 17
}

pub fn assembly_is_written(kit: &Kit<'_>) -> Result<bool, AllocError> {
    let text = kit.assembly.write(kit.alloc)?;
    Ok(text.as_slice() == CUP.as_bytes())
}

pub fn cell_tables_are_built(kit: &Kit<'_>) -> Result<bool, AllocError> {
    let tables = CellTables::build(kit.alloc, &kit.assembly)?;
    Ok(is_of_cup(&tables))
}

pub fn row_tables_are_built(kit: &Kit<'_>) -> Result<bool, AllocError> {
    let tables = RowTables::build(kit.alloc, &kit.assembly)?;
    Ok(is_of_cup(&tables))
}

/// Whether the dot can go up and nowhere else, and overlaps the bowl a unit aside.
fn is_of_cup<B: Blocking>(tables: &B) -> bool {
    if tables.assembly().piece_count() != 2 {
        return false;
    }
    let home = Cell { x: 0, y: 0, z: 0 };
    let aside = Cell { x: 1, y: 0, z: 0 };
    tables.free(0, 1, home, Direction::PlusZ)
        && !tables.free(0, 1, home, Direction::PlusX)
        && tables.blocked(0, 1, aside)
        && !tables.blocked(0, 1, home)
}

// Code and plans, in bytes and as text.

/// The text of the plan, as it is listed.
pub const TEXT: &[u8] = b"\
plan2 cup 2 18
proc p0 0 0
label L0
frame 0 -
cost 18
at 0 0 0 0 0
at 1 0 0 0 0
grip 0
call p1
drop
aside +z 1
halt
proc p1 0 1
exit 0 0
result 0 2
at 0 0 0 0 0+1v0
at 1 0 0 0 0
label L0
frame 0 0
cost 13
at 0 0 0 0 0
at 1 0 0 0 0
ask 0 2
store 0
load 0
store 1
label L1
frame 0 0
slot 0 0 2
slot 1 0 2
guard 0+1v0-1v1
cost 3+3v1
at 0 0 0 0 0+1v0-1v1
at 1 0 0 0 0
down 1 L2
load 0
ret
label L2
frame 0 0
slot 0 0 2
slot 1 0 1
guard -1+1v0-1v1
cost 5+3v1
at 0 0 0 0 -1+1v0-1v1
at 1 0 0 0 0
step +z
jump L1
";

pub fn instruction_is_encoded(kit: &Kit<'_>) -> Result<bool, AllocError> {
    let bytes = encode(kit.alloc, &Instr::Ask(0, 2))?;
    Ok(bytes.as_slice() == b"\x22\x00\x00\x00\x02".as_slice())
}

pub fn plan_is_restored(kit: &Kit<'_>) -> Result<bool, AllocError> {
    let plan = Plan::of(kit.alloc, &kit.container)?;
    is_written(kit, &plan)
}

pub fn plan_is_written(kit: &Kit<'_>) -> Result<bool, AllocError> {
    is_written(kit, &kit.plan)
}

/// Whether the plan's container is written.
fn is_written(kit: &Kit<'_>, plan: &Plan) -> Result<bool, AllocError> {
    if !plan.fits() {
        return Ok(false);
    }
    let bytes = write(kit.alloc, plan)?;
    Ok(bytes.as_slice() == kit.bytes)
}

pub fn text_is_assembled(kit: &Kit<'_>) -> Result<bool, AllocError> {
    match assemble(kit.alloc, TEXT) {
        Ok(bytes) => Ok(bytes.as_slice() == kit.bytes),
        Err(AsmFault::Memory) => Err(AllocError),
        Err(_) => Ok(false),
    }
}

pub fn plan_is_listed(kit: &Kit<'_>) -> Result<bool, AllocError> {
    let text = list(kit.alloc, &kit.container)?;
    Ok(text.as_slice() == TEXT)
}

/// The plan is of version 2 already.
pub fn plan_is_upgraded(kit: &Kit<'_>) -> Result<bool, AllocError> {
    let bytes = upgrade(kit.alloc, &kit.container)?;
    Ok(bytes.as_slice() == kit.bytes)
}
