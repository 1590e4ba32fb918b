ghost use Rattle.std.specs.Prelude.{◌≡◌, ◌++◌, ◌∷◌, [], IfOk, OnOk};
ghost use Rattle.std.specs.Fmt.{signed_decimal};
ghost use Rattle.std.specs.List.{flat_map};
ghost use Rattle.burr_assembly.specs.Rules.Homes.{homes_of, names_of};
ghost use Rattle.burr_judge.specs.PlanEnds.{never};
ghost use Rattle.burr_program.specs.CellEnds.{cell_line, cell_lines};
ghost use Rattle.burr_program.specs.Commands.{CellsCommand, CellsDone, CommandResult};
ghost use Rattle.burr_program.specs.FileFaults.{CannotRead};

use crate::done::Done;
use crate::files::read_file;
use burr_assembly::Assembly;
use burr_io::{Sink, put_all};
use burr_judge::{Status, Stop, read_assembly};
use burr_voxels::Cell;
use itoa::Buffer;
use std::alloc::{AllocError, Global};
use std::rt::Files;

/// Prints the home cells of an assembly's pieces, a line each.
#[inline(never)]
pub fn cells<'a, F: Files + AllocGlobal, W: Sink>(
    files: &F,
    assembly: &'a str,
    sink: &mut W,
) -> Result<Done<'a>, Stop<'a>>
    ensures { CommandResult W.Sink sink.old sink.new (CellsDone assembly.entry.now) CellsCommand
        (CannotRead (assembly.entry.now ∷ [])) never result }
{
    let drawing = read_file(files, assembly)?;
    let assembly = read_assembly(files.alloc(), drawing.bytes())?;
    let text = cells_text(files.alloc(), &assembly)?;
    put_all(&text, sink)?;
    Ok(Done {
        status: Status::Done,
        assembly: Some(drawing),
        source: None,
        written: None,
    })
}

/// Returns a line for each home cell, as `A 0 -1 2`: the pieces in their order, the cells of each as its
/// shape is drawn.
fn cells_text(alloc: Global, assembly: &Assembly) -> Result<Vec<u8>, AllocError>
    ensures { IfOk result (λ text.
        text.items ≡ cell_lines (names_of assembly.now) (homes_of assembly.now)) }
{
    let mut text = Vec::new(alloc);
    for piece in 0..assembly.piece_count() {
        add_cells(assembly.piece_name(piece), assembly.cells(piece), &mut text)?;
    }
    Ok(text)
}

/// Adds the lines of a piece with this name.
fn add_cells(name: &str, cells: &[Cell], text: &mut Vec<u8>) -> Result<(), AllocError>
    ensures { OnOk result
        (text.new.items ≡ text.old.items ++ flat_map (cell_line name.now) cells.now) }
{
    for cell in cells {
        add_cell(name, cell, text)?;
    }
    Ok(())
}

/// Adds the line of a cell.
fn add_cell(name: &str, cell: &Cell, text: &mut Vec<u8>) -> Result<(), AllocError>
    ensures { OnOk result (text.new.items ≡ text.old.items ++ cell_line name.now cell.now) }
{
    text.extend_from_slice(name.as_bytes())?;
    add_number(cell.x, text)?;
    add_number(cell.y, text)?;
    add_number(cell.z, text)?;
    text.push(b'\n')?;
    Ok(())
}

/// Adds a blank and a number.
fn add_number(number: i32, text: &mut Vec<u8>) -> Result<(), AllocError>
    ensures { OnOk result (text.new.items ≡ text.old.items ++ 32 ∷ signed_decimal number) }
{
    text.push(b' ')?;
    text.extend_from_slice(Buffer::new().format(number).as_bytes())
}
