ghost use Rattle.std.specs.Prelude.{Ok, Err, IfOk, IfErr, ◌≡◌, ◌↔◌, ◌++◌, ◌∷◌, [], IsTrue, Any, None, length, ◌<◌, option_copied};
ghost use Rattle.burr_assembly.specs.Rules.Lines.{IsLineForm, IsPieceWords, ShapeLine};
ghost use Rattle.burr_assembly.specs.Views.LineViews.{form_of, words_of};
ghost use Rattle.burr_assembly.specs.Rules.Faults.{FormGives, PieceRule, LineGives, EndGives, Blank, Shapes, Pieces};
ghost use Rattle.burr_assembly.specs.Views.ReaderViews.{sketched, IsDue, beginning_of, assembly_of, IsReady, IsHome};
ghost use Rattle.burr_assembly.specs.Views.HomedPieces.{pieces_of, AreAtHome, HomedPiece, IsFirstMeeting};
ghost use Rattle.burr_assembly.specs.Views.Drawings.{AreDistinct, IsShapeOf};
ghost use Rattle.burr_assembly.specs.Rules.Text.{IsShapeName, HasCells};

use crate::assembly::FEWEST_PIECES;
use crate::fault::AssemblyFault;
use crate::occupancy::{MOST_PIECES, Occupancy};
use crate::piece::{DrawnShape, Piece};
use crate::text::line::{PieceLine, TextLine, position};
use crate::text::sketch::Sketch;
use burr_text::{Name, is_name};
use burr_voxels::Orientation;
use std::alloc::Global;

/// What the lines so far have been.
#[derive(Drop)]
pub enum Beginning {
    /// No line yet.
    Blank,
    /// The assembly's name, and shapes that have ended.
    Shapes(Header),
    /// After them a shape that has not.
    Drawing(Header, Sketch),
    /// The shapes, and after them a piece at least.
    Pieces(Header, Occupancy),
}

impl Beginning {
    /// What the lines have been with the next one, which is given without its end; or that line's
    /// first fault.
    pub fn next(self, alloc: Global, bytes: &[u8], line: usize) -> Result<Beginning, AssemblyFault>
        requires { IsReady self }
        ensures ok { IfOk result (λ next.
            LineGives line (beginning_of self) bytes.now (Ok (beginning_of next))) }
        ensures home { IfOk result IsHome }
        ensures err { IfErr result (λ e.
            IsDue e (LineGives line (beginning_of self) bytes.now (Err e))) }
    {
        match TextLine::parse(bytes) {
            Some(form) => self.with(alloc, form, line),
            None => Err(AssemblyFault::A1 { line }),
        }
    }

    /// The same with a line of this form.
    fn with(
        self,
        alloc: Global,
        form: TextLine<'_>,
        line: usize,
    ) -> Result<Beginning, AssemblyFault>
        requires form { IsLineForm (form_of form) }
        requires ready { IsReady self }
        ensures ok { IfOk result (λ next.
            FormGives line (beginning_of self) (form_of form.entry) (Ok (beginning_of next))) }
        ensures home { IfOk result IsHome }
        ensures err { IfErr result (λ e.
            IsDue e (FormGives line (beginning_of self) (form_of form.entry) (Err e))) }
    {
        match (self, form) {
            (Beginning::Blank, TextLine::Assembly(name)) => {
                if !is_name(name) {
                    return Err(AssemblyFault::A2 { line });
                }
                let (name, shapes) = (Name::new(alloc, name)?, Vec::new(alloc));
                Ok(Beginning::Shapes(Header { name, shapes }))
            }
            (Beginning::Shapes(header), TextLine::Shape(name)) => {
                let sketch = header.begin_shape(alloc, name, line)?;
                Ok(Beginning::Drawing(header, sketch))
            }
            (Beginning::Shapes(header), TextLine::Piece(words)) => {
                if header.shapes.is_empty() {
                    return Err(AssemblyFault::A1 { line });
                }
                header.with_piece(alloc, Occupancy::new(alloc), words, line)
            }
            (Beginning::Drawing(header, sketch), TextLine::Layer) => {
                let sketch = sketch.begin_layer(alloc, line)?;
                Ok(Beginning::Drawing(header, sketch))
            }
            (Beginning::Drawing(header, sketch), TextLine::Row(marks)) => {
                let sketch = sketch.add_row(alloc, marks, line)?;
                Ok(Beginning::Drawing(header, sketch))
            }
            (Beginning::Drawing(mut header, sketch), TextLine::End) => {
                let shape = sketch.finish(alloc, line)?;
                header.shapes.push(shape)?;
                Ok(Beginning::Shapes(header))
            }
            (Beginning::Pieces(header, occupancy), TextLine::Piece(words)) => {
                header.with_piece(alloc, occupancy, words, line)
            }
            _ => Err(AssemblyFault::A1 { line }),
        }
    }

    /// The name, the shapes and the pieces of the assembly, where the text may end here; `line` is the
    /// one after the last.
    pub fn finish(self, line: usize) -> Result<(Name, Vec<DrawnShape>, Vec<Piece>), AssemblyFault>
        ensures ok { IfOk result (λ parts. EndGives line (beginning_of self)
            (Ok (assembly_of parts.0 parts.1.items parts.2.items))) }
        ensures homes { IfOk result (λ parts. IsHome self → AreAtHome parts.1.items parts.2.items) }
        ensures err { IfErr result (λ e. EndGives line (beginning_of self) (Err e)) }
    {
        match self {
            Beginning::Blank | Beginning::Drawing(_, _) => Err(AssemblyFault::A1 { line }),
            Beginning::Shapes(header) => {
                if header.shapes.is_empty() {
                    return Err(AssemblyFault::A1 { line });
                }
                Err(AssemblyFault::A7 { line })
            }
            Beginning::Pieces(header, occupancy) => {
                if occupancy.pieces().len() < FEWEST_PIECES {
                    return Err(AssemblyFault::A7 { line });
                }
                Ok((header.name, header.shapes, occupancy.into_pieces()))
            }
        }
    }
}

/// The most shapes of an assembly.
const MOST_SHAPES: usize = 32;

/// What stands before the pieces: the assembly's name and its shapes.
#[derive(Drop)]
pub struct Header {
    pub name: Name,
    pub shapes: Vec<DrawnShape>,
}

impl Header {
    /// A line `shape NAME` after the shapes so far.
    fn begin_shape(&self, alloc: Global, name: &[u8], line: usize) -> Result<Sketch, AssemblyFault>
        ensures ok { IfOk result (λ s. FormGives line (Shapes self.now.name self.now.shapes.items)
            (ShapeLine name.now) (Ok (sketched self.now.name self.now.shapes.items s))) }
        ensures err { IfErr result (λ e. IsDue e (FormGives line
            (Shapes self.now.name self.now.shapes.items) (ShapeLine name.now) (Err e))) }
    {
        if self.shapes.len() >= MOST_SHAPES {
            return Err(AssemblyFault::A7 { line });
        }
        if !is_name(name) || self.has_shape(name) {
            return Err(AssemblyFault::A2 { line });
        }
        Ok(Sketch::new(alloc, Name::new(alloc, name)?))
    }

    /// Whether a shape has this name.
    fn has_shape(&self, name: &[u8]) -> bool
        ensures { IsTrue result ↔ IsShapeName self.now.shapes.items name.now }
    {
        self.shapes
            .iter()
            .any(|shape| shape.name().as_bytes() == name)
    }

    /// The shape with this name.
    fn shape(&self, name: &[u8]) -> Option<&DrawnShape>
        ensures { IsShapeOf self.now.shapes.items name.now (option_copied result) }
    {
        self.shapes
            .iter()
            .find(|shape| shape.name().as_bytes() == name)
    }

    /// A piece's line after the pieces so far; the piece shares no cell with an earlier one.
    fn with_piece(
        self,
        alloc: Global,
        occupancy: Occupancy,
        words: PieceLine<'_>,
        line: usize,
    ) -> Result<Beginning, AssemblyFault>
        requires words { IsPieceWords (words_of words) }
        requires distinct { AreDistinct self.shapes.items }
        requires homes { AreAtHome self.shapes.items occupancy }
        ensures ok { IfOk result (λ next. PieceRule line self.name self.shapes.items
            (pieces_of occupancy) (words_of words.entry) (Ok (beginning_of next))) }
        ensures home { IfOk result IsHome }
        ensures err { IfErr result (λ e. IsDue e (PieceRule line self.name self.shapes.items
            (pieces_of occupancy) (words_of words.entry) (Err e))) }
    {
        let pieces = occupancy.pieces();
        if pieces.len() >= MOST_PIECES {
            return Err(AssemblyFault::A7 { line });
        }
        if !is_name(words.name) || is_taken(pieces, words.name) {
            return Err(AssemblyFault::A2 { line });
        }
        let Some(shape) = self.shape(words.shape) else {
            return Err(AssemblyFault::A6 { line });
        };
        let Some(orientation) = Orientation::parse(words.orientation) else {
            return Err(AssemblyFault::A4 { line });
        };
        let Some(position) = position(words.x, words.y, words.z) else {
            return Err(AssemblyFault::A5 { line });
        };
        let piece = Piece::new(alloc, words.name, shape, orientation, position)?;
        if let Some(earlier) = occupancy.first_with(piece.cells()) {
            let piece = pieces.len() as u8;
            return Err(AssemblyFault::A8 {
                line,
                earlier,
                piece,
            });
        }
        Ok(Beginning::Pieces(self, occupancy.with(piece)?))
    }
}

/// Whether a piece has this name.
fn is_taken(pieces: &[Piece], name: &[u8]) -> bool
    ensures { IsTrue result ↔ Any (λ (p : HomedPiece). p.piece.name ≡ name.now) pieces.now }
{
    pieces.iter().any(|piece| piece.name().as_bytes() == name)
}
