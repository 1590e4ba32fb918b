ghost use Rattle.std.specs.Prelude.{◌≡◌, ◌≤◌, ◌<◌, length, IfOk, IfErr, IfSome, slice_get, All};
ghost use Rattle.burr_voxels.specs.Near.{IsWithin};
ghost use Rattle.burr_assembly.specs.Rules.Text.{IsText, IsAssembly, HasCells, text_of};
ghost use Rattle.burr_assembly.specs.Rules.Faults.{FirstFault};
ghost use Rattle.burr_assembly.specs.Rules.Homes.{HasHome, homes_of};
ghost use Rattle.burr_assembly.specs.Views.HomedPieces.{pieces_of, AreAtHome};
ghost use Rattle.burr_assembly.specs.Views.ReaderViews.{IsDue};

use crate::fault::AssemblyFault;
use crate::piece::{DrawnShape, Piece};
use crate::text::beginning::Beginning;
use crate::text::{add_pieces, add_shapes};
use burr_text::{Name, cut_at};
use burr_voxels::Cell;
use std::alloc::{AllocError, Global};
use std::marker::Model;

/// The fewest pieces of an assembly.
pub const FEWEST_PIECES: usize = 2;

/// An assembly: a name, 1 to 32 shapes, and 2 to 32 pieces that have these shapes. No two pieces
/// share a cell. Pieces are numbered from 0 in their order.
#[derive(Debug, Drop)]
pub struct Assembly {
    name: Name,
    shapes: Vec<DrawnShape>,
    pieces: Vec<Piece>,
}

impl Model for Assembly {
    ghost use Rattle.burr_assembly.specs.Rules.Text.{Assembly as AssemblyOf, IsAssembly};
    ghost use Rattle.burr_assembly.specs.Views.HomedPieces.{pieces_of, AreAtHome};

    ghost Value = { AssemblyOf };

    ghost view = { λ a. record
        { name = a.name; shapes = a.shapes.items; pieces = pieces_of a.pieces.items } };

    ghost invariant = { λ a.
        IsAssembly
        (record { name = a.name; shapes = a.shapes.items; pieces = pieces_of a.pieces.items })
        × AreAtHome a.shapes.items a.pieces.items };
}

impl Assembly {
    /// The assembly of a text, or the text's first fault, or `Memory` where a request for memory
    /// was refused.
    pub fn read(alloc: Global, text: &[u8]) -> Result<Assembly, AssemblyFault>
        ensures ok { IfOk result (λ a. IsText text.now a) }
        ensures err { IfErr result (λ e. IsDue e (FirstFault text.now e)) }
    {
        let mut beginning = Beginning::Blank;
        let mut rest = text;
        let mut line = 1;
        while !rest.is_empty() {
            let Some((bytes, more)) = cut_at(rest, b'\n') else {
                return Err(AssemblyFault::A1 { line });
            };
            beginning = beginning.next(alloc, bytes, line)?;
            rest = more;
            line += 1;
        }
        let (name, shapes, pieces) = beginning.finish(line)?;
        Ok(Assembly {
            name,
            shapes,
            pieces,
        })
    }

    /// The assembly's text, the one that `read` gives it back from.
    pub fn write(&self, alloc: Global) -> Result<Vec<u8>, AllocError>
        ensures { IfOk result (λ text. text.items ≡ text_of self.now) }
    {
        let mut text = Vec::from_slice(alloc, b"assembly ")?;
        text.extend_from_slice(self.name.as_bytes())?;
        text.push(b'\n')?;
        add_shapes(&mut text, &self.shapes)?;
        add_pieces(&mut text, &self.pieces)?;
        Ok(text)
    }

    /// The assembly's name.
    pub fn name(&self) -> &str
        ensures { result.now ≡ self.now.name }
    {
        self.name.as_str()
    }

    /// The number of its pieces, 2 to 32. What a reference to an assembly holds is one.
    pub fn piece_count(&self) -> u8
        ensures count { result ≡ length self.now.pieces }
        ensures assembly { IsAssembly self.now }
        ensures several { 2 ≤ result }
        ensures few { result ≤ 32 }
    {
        self.pieces.len() as u8
    }

    /// The name of a piece; its number is below the count, the caller's condition.
    pub fn piece_name(&self, piece: u8) -> &str
        requires { piece < length self.now.pieces }
        ensures { IfSome (slice_get self.now.pieces piece) (λ p. result.now ≡ p.name) }
    {
        self.pieces[usize::from(piece)].name().as_str()
    }

    /// The home cells of a piece, in the order in which its shape is drawn: layers upwards, in each
    /// its rows, in each x rising. Each coordinate lies in -79..79.
    pub fn cells(&self, piece: u8) -> &[Cell]
        requires { piece < length self.now.pieces }
        ensures cells { IfSome (slice_get self.now.pieces piece) (λ p.
            HasCells self.now.shapes p result.now) }
        ensures home { HasHome (homes_of self.now) piece result.now }
        ensures near { All (IsWithin 79) result.now }
    {
        self.pieces[usize::from(piece)].cells()
    }
}
