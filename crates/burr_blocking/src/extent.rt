ghost use Rattle.std.specs.Prelude.{◌≡◌, ◌+◌, ◌≤◌, ◌<◌, ◌↔◌, ◌≤ℤ◌, ◌-ℤ◌, ℕ, pos, neg_ℤ, IsTrue, Contains, length, slice_index_or};
ghost use Rattle.std.specs.Int.{int_gap, int_max};
ghost use Rattle.std.specs.List.{All};
ghost use Rattle.burr_voxels.specs.declared.cell.Cell.{Cell as CellOf};
ghost use Rattle.burr_voxels.specs.Grid.{minus, plus, along, origin};
ghost use Rattle.burr_voxels.specs.Near.{IsWithin};
ghost use Rattle.burr_assembly.specs.Rules.Homes.{DiameterAtMost};
ghost use Rattle.burr_blocking.specs.Views.Corners.{AreCorners, IsOffset, lower_of, upper_of, units_of};

use burr_voxels::{Cell, Direction};

/// A box of cells, or of displacements, by its least and its greatest corner. It has at most 31 of
/// them along each axis.
#[derive(Clone, Copy, Debug, PartialEq, Eq)]
pub struct Extent {
    pub least: Cell,
    pub greatest: Cell,
    ghost near: { IsWithin 158 least },
    ghost small: { AreCorners 30 least greatest },
}

impl Extent {
    ghost use Rattle.burr_blocking.specs.Views.Boxes.{AreDisplacements, AreOffsets, IsHomeBox, IsInBox, IsInRows, wide_of, deep_of, high_of, size_of, row_count_of, place_of, row_of, column_of};

    /// The least box round cells; no two of them differ by more than 15 in any coordinate. Where
    /// there are no cells, it is the box of the origin alone.
    pub fn around(cells: &[Cell]) -> Extent
        requires near { All (IsWithin 79) cells.now }
        requires small { DiameterAtMost 15 cells.now }
        ensures holds { All (IsInBox result) cells.now }
        ensures small { IsHomeBox result }
    {
        let first = first_of(cells);
        let mut least = first;
        let mut greatest = first;
        for cell in cells {
            least = Cell {
                x: least.x.min(cell.x),
                y: least.y.min(cell.y),
                z: least.z.min(cell.z),
            };
            greatest = Cell {
                x: greatest.x.max(cell.x),
                y: greatest.y.max(cell.y),
                z: greatest.z.max(cell.z),
            };
        }
        Extent { least, greatest }
    }

    /// The box of the displacements from the cells of this box to those of another.
    pub fn displacements_to(self, other: Extent) -> Extent
        requires small { IsHomeBox self }
        requires other { IsHomeBox other }
        ensures { AreDisplacements self other result }
    {
        let least = other.least - self.greatest;
        let greatest = other.greatest - self.least;
        Extent { least, greatest }
    }

    /// How many there are along x, 1 to 31.
    pub fn wide(self) -> usize
        ensures count { result ≡ wide_of self }
        ensures few { result ≤ 31 }
    {
        gap(self.least.x, self.greatest.x) + 1
    }

    /// How many there are along y, 1 to 31.
    pub fn deep(self) -> usize
        ensures count { result ≡ deep_of self }
        ensures few { result ≤ 31 }
    {
        gap(self.least.y, self.greatest.y) + 1
    }

    /// How many there are along z, 1 to 31.
    pub fn high(self) -> usize
        ensures count { result ≡ high_of self }
        ensures few { result ≤ 31 }
    {
        gap(self.least.z, self.greatest.z) + 1
    }

    /// How many there are in all, 1 to 29,791.
    pub fn size(self) -> usize
        ensures { result ≡ size_of self }
    {
        self.wide() * self.row_count()
    }

    /// Whether a displacement lies in the box.
    pub fn contains(self, displacement: Cell) -> bool
        ensures { IsTrue result ↔ IsInBox self displacement }
    {
        self.reaches_x(displacement) && self.reaches_y(displacement) && self.reaches_z(displacement)
    }

    /// Whether a displacement's x is one of the box.
    pub fn reaches_x(self, displacement: Cell) -> bool
        ensures { IsTrue result
            ↔ ((self.least.x ≤ℤ displacement.x) × (displacement.x ≤ℤ self.greatest.x)) }
    {
        is_from_to(displacement.x, self.least.x, self.greatest.x)
    }

    /// Whether a displacement's y is one of the box.
    fn reaches_y(self, displacement: Cell) -> bool
        ensures { IsTrue result
            ↔ ((self.least.y ≤ℤ displacement.y) × (displacement.y ≤ℤ self.greatest.y)) }
    {
        is_from_to(displacement.y, self.least.y, self.greatest.y)
    }

    /// Whether a displacement's z is one of the box.
    fn reaches_z(self, displacement: Cell) -> bool
        ensures { IsTrue result
            ↔ ((self.least.z ≤ℤ displacement.z) × (displacement.z ≤ℤ self.greatest.z)) }
    {
        is_from_to(displacement.z, self.least.z, self.greatest.z)
    }

    /// How many rows along x there are, 1 to 961.
    pub fn row_count(self) -> usize
        ensures { result ≡ row_count_of self }
    {
        self.deep() * self.high()
    }

    /// Whether a displacement lies in a row of the box, be it before, in or after the box.
    pub fn reaches_row(self, displacement: Cell) -> bool
        ensures { IsTrue result ↔ IsInRows self displacement }
    {
        self.reaches_y(displacement) && self.reaches_z(displacement)
    }

    /// The number of the row in which a displacement lies.
    pub fn row(self, displacement: Cell) -> usize
        requires { IsInRows self displacement }
        ensures value { result ≡ row_of self displacement }
        ensures bound { result < row_count_of self }
        ensures few { result ≤ 960 }
    {
        let y = gap(self.least.y, displacement.y);
        let z = gap(self.least.z, displacement.z);
        z * self.deep() + y
    }

    /// How far a displacement of the box lies after the first one of its row, 0 to 30.
    pub fn column(self, displacement: Cell) -> u32
        requires from { self.least.x ≤ℤ displacement.x }
        requires to { displacement.x ≤ℤ self.greatest.x }
        ensures value { result ≡ column_of self displacement }
        ensures bound { result < 31 }
    {
        gap(self.least.x, displacement.x) as u32
    }

    /// How far a displacement lies after the first one of its row; below 0 where it lies before it.
    pub fn signed_column(self, displacement: Cell) -> i32
        requires { IsWithin 828 displacement }
        ensures value { result ≡ displacement.x -ℤ self.least.x }
        ensures few { result ≤ℤ pos 1016 }
    {
        displacement.x - self.least.x
    }

    /// Where a displacement of the box stands in its table.
    pub fn place(self, displacement: Cell) -> usize
        requires { IsInBox self displacement }
        ensures value { result ≡ place_of self displacement }
        ensures bound { result < size_of self }
    {
        self.row(displacement) * self.wide() + self.column(displacement) as usize
    }

    /// How far a displacement lies from the least corner, along x, y and z; 1,000 or more along an
    /// axis on which it lies below it.
    pub fn units_from(self, displacement: Cell) -> (u32, u32, u32)
        ensures { AreOffsets self displacement result.0 result.1 result.2 }
    {
        let x = offset(displacement.x, self.least.x);
        let y = offset(displacement.y, self.least.y);
        let z = offset(displacement.z, self.least.z);
        (x, y, z)
    }

    /// The first and the last number of units, at least 1, that can take a displacement into the
    /// box along a direction, as far as the coordinate on that axis tells. Both are 1 where there
    /// is no such number.
    pub fn units_ahead(self, from: Cell, direction: Direction) -> (u16, u16)
        requires { IsWithin 828 from }
        ensures first { 1 ≤ result.0 }
        ensures few { result.1 ≤ 1016 }
        ensures within { (k : ℕ) → 1 ≤ k → IsInBox self (plus from (along direction (pos k)))
            → (result.0 ≤ k) × (k ≤ result.1) }
    {
        let to_least = units_along(self.least - from, direction);
        let to_greatest = units_along(self.greatest - from, direction);
        let first = at_least_one(to_least.min(to_greatest));
        let last = at_least_one(to_least.max(to_greatest));
        (first, last)
    }
}

/// How many units a cell lies from the origin along a direction; below 0 where it lies the other
/// way.
fn units_along(cell: Cell, direction: Direction) -> i32
    requires { IsWithin 1016 cell }
    ensures { result ≡ units_of direction cell }
{
    match direction {
        Direction::PlusX => cell.x,
        Direction::MinusX => -cell.x,
        Direction::PlusY => cell.y,
        Direction::MinusY => -cell.y,
        Direction::PlusZ => cell.z,
        Direction::MinusZ => -cell.z,
    }
}

/// A number of units, but 1 where there are fewer.
fn at_least_one(units: i32) -> u16
    requires { units ≤ℤ pos 1016 }
    ensures { pos result ≡ int_max units (pos 1) }
{
    units.max(1) as u16
}

/// The first of the cells; the origin where there are no cells.
pub fn first_of(cells: &[Cell]) -> Cell
    requires { All (IsWithin 79) cells.now }
    ensures value { result ≡ slice_index_or cells.now 0 origin }
    ensures first { 0 < length cells.now → Contains cells.now result }
    ensures near { IsWithin 79 result }
{
    cells.first().copied().unwrap_or(Cell::ORIGIN)
}

/// How far a number lies above another one.
fn gap(from: i32, to: i32) -> usize
    requires from { neg_ℤ (pos 1000) ≤ℤ from }
    requires rises { from ≤ℤ to }
    requires to { to ≤ℤ pos 1000 }
    ensures { result ≡ int_gap from to }
{
    (to - from) as usize
}

/// How far a number lies above a least one; 1,000 or more where it lies below it.
fn offset(number: i32, least: i32) -> u32
    requires from { neg_ℤ (pos 158) ≤ℤ least }
    requires to { least ≤ℤ pos 158 }
    ensures { IsOffset least number result }
{
    number.cast_unsigned().wrapping_sub(least.cast_unsigned())
}

/// Whether a number is one of those from one to another, these two among them.
fn is_from_to(number: i32, from: i32, to: i32) -> bool
    ensures { IsTrue result ↔ ((from ≤ℤ number) × (number ≤ℤ to)) }
{
    from <= number && number <= to
}
