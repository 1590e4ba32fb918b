ghost use Rattle.std.specs.Prelude.{◌≡◌, IfOk, ◌+◌, ◌<◌, length, map, vec_len, ◌↔◌, IsTrue};
ghost use Rattle.std.specs.List.{All};
ghost use Rattle.burr_voxels.specs.Grid.{minus};
ghost use Rattle.burr_voxels.specs.Near.{IsWithin};
ghost use Rattle.burr_voxels.specs.declared.cell.Cell.{Cell as CellOf};
ghost use Rattle.burr_assembly.specs.Rules.Homes.{DiameterAtMost, homes_of, home_at};
ghost use Rattle.burr_blocking.specs.Views.Boxes.{IsInBox, place_of, size_of};
ghost use Rattle.burr_blocking.specs.Views.Tables.{IsMarked, SetsMarks};
ghost use Rattle.burr_blocking.specs.Views.Overlaps.{AreOverlapsOf, HasNoneAhead};

use crate::blocking::Blocking;
use crate::extent::Extent;
use crate::triangle::Triangle;
use crate::triangle::translate::Pair;
use burr_assembly::Assembly;
use burr_voxels::{Cell, Direction, meets, overlap_at};
use std::alloc::{AllocError, Global};
use std::marker::Model;

/// The queries of pieces, answered by tables: one for each two pieces, with one truth value for
/// each displacement at which they may overlap. Pieces whose cells differ by a displacement alone
/// share them. To build them takes time in the product of the two pieces' cells; `blocked` reads
/// one value, `free` at most 31.
pub type CellTables<'a> = Triangle<'a, PairTable>;

/// For each displacement of a box whether one piece, so displaced against another one at home,
/// overlaps it; the box holds all displacements at which it does.
#[derive(Debug, Drop)]
pub struct PairTable {
    extent: Extent,
    marks: Vec<bool>,
    ghost whole: { vec_len marks ≡ size_of extent },
}

impl PairAnswers for PairTable {
    ghost Overlaps = { λ t. IsMarked t.extent t.marks.items };

    fn build(alloc: Global, cells: &[Cell], others: &[Cell]) -> Result<PairTable, AllocError> {
        let hull = Extent::around(cells);
        let other_hull = Extent::around(others);
        let extent = hull.displacements_to(other_hull);
        // the place of the displacement from a cell to another one is a sum of two places: from the
        // cell to the other hull's least corner, and from this hull's greatest corner to the other
        let places = places_from(alloc, extent, hull.greatest, others)?;
        let mut marks = Vec::from_elem(alloc, false, extent.size())?;
        for cell in cells {
            mark(&mut marks, extent.place(other_hull.least - *cell), &places);
        }
        Ok(PairTable { extent, marks })
    }

    fn blocked(&self, displacement: Cell) -> bool {
        self.extent.contains(displacement) && self.marks[self.extent.place(displacement)]
    }

    fn free(&self, displacement: Cell, direction: Direction) -> bool {
        let (first, last) = self.extent.units_ahead(displacement, direction);
        for units in first..=last {
            if self.blocked(displacement + direction.along(i32::from(units))) {
                return false;
            }
        }
        true
    }
}

/// Where the displacements from a corner to cells stand in the table of a box.
fn places_from(
    alloc: Global,
    extent: Extent,
    corner: Cell,
    cells: &[Cell],
) -> Result<Vec<usize>, AllocError>
    requires corner { IsWithin 79 corner }
    requires near { All (IsWithin 79) cells.now }
    requires inside { All (λ to. IsInBox extent (minus to corner)) cells.now }
    ensures { IfOk result (λ v. v.items ≡ map (λ to. place_of extent (minus to corner)) cells.now) }
{
    let mut places = Vec::with_capacity(alloc, cells.len())?;
    for cell in cells {
        places.push(extent.place(*cell - corner))?;
    }
    Ok(places)
}

/// Sets the mark at each of these places, counted from a first one.
fn mark(marks: &mut [bool], first: usize, places: &[usize])
    requires { All (λ place. first + place < length marks.old) places.now }
    ensures { SetsMarks marks.old marks.new first places.now }
{
    for place in places {
        marks[first + *place] = true;
    }
}

/// What is kept of two pieces to answer how the one, displaced, meets the other at home. An answer
/// takes no memory.
pub trait PairAnswers: Sized + Drop {
    /// The displacements at which the one overlaps the other.
    ghost Overlaps: { Self → CellOf → Type 0 };

    /// Made of the cells of the one and of the other, both at home.
    fn build(alloc: Global, cells: &[Cell], others: &[Cell]) -> Result<Self, AllocError>
        requires near { All (IsWithin 79) cells.now }
        requires others_near { All (IsWithin 79) others.now }
        requires small { DiameterAtMost 15 cells.now }
        requires others_small { DiameterAtMost 15 others.now }
        ensures { IfOk result (λ pair. AreOverlapsOf (Overlaps pair) cells.now others.now) };

    /// Whether the one overlaps the other at a displacement.
    fn blocked(&self, displacement: Cell) -> bool
        ensures { IsTrue result ↔ Overlaps self.now displacement };

    /// Whether the one overlaps the other at no displacement any number of units, at least one,
    /// ahead along a direction. The displacement lies within 828 a coordinate, the caller's
    /// condition.
    fn free(&self, displacement: Cell, direction: Direction) -> bool
        requires { IsWithin 828 displacement }
        ensures { IsTrue result ↔ HasNoneAhead (Overlaps self.now) displacement direction };
}

/// The queries of pieces, answered by comparing cells. It takes no memory, and each answer takes
/// time in the product of the two pieces' cells: it is the reference for every faster one.
#[derive(Debug, Drop)]
pub struct PlainCells<'a> {
    assembly: &'a Assembly,
}

impl<'a> Model for PlainCells<'a> {
    ghost use Rattle.burr_assembly.specs.Rules.Text.{Assembly as AssemblyOf};

    ghost Value = { AssemblyOf };

    ghost view = { λ p. p.assembly.now };
}

impl<'a> PlainCells<'a> {
    /// The queries of the pieces of an assembly.
    pub fn new(assembly: &'a Assembly) -> PlainCells<'a>
        ensures { result ≡ assembly.entry.now }
    {
        PlainCells { assembly }
    }

    /// The home cells of a piece.
    fn home(&self, piece: usize) -> &[Cell]
        requires known { piece < length self.now.pieces }
        requires small { piece < 256 }
        ensures home { result.now ≡ home_at (homes_of self.now) piece }
        ensures near { All (IsWithin 79) result.now }
    {
        self.assembly.cells(piece as u8)
    }
}

impl<'a> Blocking for PlainCells<'a> {
    ghost subject = { λ a. a };

    ghost IsPair = { λ a p q pair. (pair.earlier ≡ p) × (p < length a.pieces) × (p < 256)
        × (pair.later ≡ q) × (q < length a.pieces) × (q < 256) };

    fn assembly(&self) -> &Assembly {
        self.assembly
    }

    fn pair(&self, piece: u8, other: u8) -> Pair {
        Pair {
            earlier: usize::from(piece),
            later: usize::from(other),
            shift: Cell::ORIGIN,
            is_turned: false,
            sign: 1,
        }
    }

    fn pair_blocked(&self, pair: &Pair, displacement: Cell) -> bool {
        overlap_at(self.home(pair.earlier), displacement, self.home(pair.later))
    }

    fn pair_free(&self, pair: &Pair, displacement: Cell, direction: Direction) -> bool {
        !meets(
            self.home(pair.earlier),
            displacement,
            self.home(pair.later),
            direction,
        )
    }
}
