ghost use Rattle.std.specs.Prelude.{◌≡◌, ◌↔◌, IsTrue, ◌∷◌, [], Contains};
ghost use Rattle.std.specs.List.{All};
ghost use Rattle.burr_voxels.specs.Grid.{shifted};
ghost use Rattle.burr_voxels.specs.Near.{IsWithin};
ghost use Rattle.burr_voxels.specs.CellSets.{IsAheadOfSome, Overlap};

use crate::direction::Direction;
use std::marker::Model;
use std::ops::{Add, Sub};

/// A cell of the cubic grid, named by the whole coordinates of its centre; also the way from one
/// cell to another.
#[derive(Clone, Copy, Debug, PartialEq, Eq, Hash)]
pub struct Cell {
    pub x: i32,
    pub y: i32,
    pub z: i32,
}

impl Cell {
    ghost use Rattle.burr_voxels.specs.Grid.{at, IsAhead};

    /// The cell whose coordinates are all 0.
    pub const ORIGIN: Cell = Cell { x: 0, y: 0, z: 0 };

    /// Whether this cell lies a whole number of units, at least one, from another along a
    /// direction.
    pub fn is_ahead_of(self, from: Cell, direction: Direction) -> bool
        ensures { IsTrue result ↔ IsAhead from self direction }
    {
        let in_column = self.x == from.x && self.y == from.y;
        let in_row = self.y == from.y && self.z == from.z;
        let in_file = self.x == from.x && self.z == from.z;
        match direction {
            Direction::PlusX => in_row && from.x < self.x,
            Direction::MinusX => in_row && self.x < from.x,
            Direction::PlusY => in_file && from.y < self.y,
            Direction::MinusY => in_file && self.y < from.y,
            Direction::PlusZ => in_column && from.z < self.z,
            Direction::MinusZ => in_column && self.z < from.z,
        }
    }
}

impl Add for Cell {
    type Output = Cell;

    ghost use Rattle.burr_voxels.specs.Grid.{plus, FitsCell};

    ghost can_add = { λ a b. FitsCell (plus a b) };

    ghost add_gives = { λ a b r. r ≡ plus a b };

    /// The cell that lies as far from this one as the other lies from the origin; the coordinates
    /// have to fit an `i32`, the caller's condition.
    fn add(self, other: Cell) -> Cell {
        Cell {
            x: self.x + other.x,
            y: self.y + other.y,
            z: self.z + other.z,
        }
    }
}

impl Sub for Cell {
    type Output = Cell;

    ghost use Rattle.burr_voxels.specs.Grid.{minus, FitsCell};

    ghost can_sub = { λ a b. FitsCell (minus a b) };

    ghost sub_gives = { λ a b r. r ≡ minus a b };

    /// The way from the other cell to this one; the coordinates have to fit an `i32`, the caller's
    /// condition.
    fn sub(self, other: Cell) -> Cell {
        Cell {
            x: self.x - other.x,
            y: self.y - other.y,
            z: self.z - other.z,
        }
    }
}

/// A list of cells, in its order.
#[derive(Debug, Drop)]
pub struct Cells {
    cells: Vec<Cell>,
}

impl Model for Cells {
    ghost use Rattle.std.specs.Prelude.{List};
    ghost use Rattle.burr_voxels.specs.declared.cell.Cell.{Cell};

    ghost Value = { List Cell };

    ghost view = { λ c. c.cells.items };
}

impl Cells {
    /// These cells. Takes no memory.
    pub fn new(cells: Vec<Cell>) -> Cells
        ensures { result ≡ cells.items }
    {
        Cells { cells }
    }

    /// The cells, in their order.
    pub fn as_slice(&self) -> &[Cell]
        ensures { result.now ≡ self.now }
    {
        self.cells.as_slice()
    }

    /// The list that was given.
    pub fn into_vec(self) -> Vec<Cell>
        ensures { result.items ≡ self }
    {
        self.cells
    }
}

/// A shape: the sides of its box, and its cells in the order in which they are drawn, layers
/// upwards, in each its rows, in each x rising.
#[derive(Debug, Drop)]
pub struct Shape {
    pub sides: Cell,
    pub cells: Cells,
}

/// Whether one of the cells, displaced, has one of the others ahead of it along a direction.
pub fn meets(cells: &[Cell], displacement: Cell, others: &[Cell], direction: Direction) -> bool
    requires cells { All (IsWithin 79) cells.now }
    requires displacement { IsWithin 512 displacement }
    ensures { IsTrue result ↔ IsAheadOfSome (shifted displacement cells.now) others.now direction }
{
    for cell in cells {
        if is_met(*cell + displacement, others, direction) {
            return true;
        }
    }
    false
}

/// Whether one of the cells lies ahead of a cell along a direction.
fn is_met(from: Cell, cells: &[Cell], direction: Direction) -> bool
    ensures { IsTrue result ↔ IsAheadOfSome (from ∷ []) cells.now direction }
{
    for cell in cells {
        if cell.is_ahead_of(from, direction) {
            return true;
        }
    }
    false
}

/// Whether one of the cells, displaced, is one of the others.
pub fn overlap_at(cells: &[Cell], displacement: Cell, others: &[Cell]) -> bool
    requires cells { All (IsWithin 79) cells.now }
    requires displacement { IsWithin 512 displacement }
    ensures { IsTrue result ↔ Overlap (shifted displacement cells.now) others.now }
{
    for cell in cells {
        if has_cell(others, *cell + displacement) {
            return true;
        }
    }
    false
}

/// Whether a cell is in the list.
fn has_cell(cells: &[Cell], cell: Cell) -> bool
    ensures { IsTrue result ↔ Contains cells.now cell }
{
    cells.contains(&cell)
}
