ghost use Rattle.std.specs.Prelude.{◌≡◌, IfOk, ◌↔◌, ◌<◌, ◌≤ℤ◌, ◌+ℤ◌, ◌+◌, ◌≤◌, ◌⊎◌, ℕ, pos, length, slice_index_or, IsTrue, ℤ, vec_len};
ghost use Rattle.std.specs.Simd.Lanes.{zip2};
ghost use Rattle.std.specs.List.{All};
ghost use Rattle.burr_voxels.specs.declared.direction.Direction.TheVariants.{PlusX, MinusX};
ghost use Rattle.burr_voxels.specs.Grid.{along, minus, plus};
ghost use Rattle.burr_voxels.specs.Near.{IsWithin};
ghost use Rattle.burr_blocking.specs.Views.Bits.{AreNext, IsNext, HasBit, SetsBit, or_both, joined_from};
ghost use Rattle.burr_blocking.specs.Views.Boxes.{IsInBox, wide_of, deep_of, high_of, row_of, column_of, row_count_of};
ghost use Rattle.burr_blocking.specs.Views.Overlaps.{HasNoneAhead};
ghost use Rattle.burr_blocking.specs.Views.PairBits.{AreBitsFrom, AreShort, HasBitIn, IsInRowOf, IsSet};

use crate::cell_tables::PairAnswers;
use crate::extent::Extent;
use crate::triangle::Triangle;
use burr_voxels::{Cell, Direction};
use std::alloc::{AllocError, Global};
use std::simd::prelude::*;

/// The queries of pieces, answered by rows of bits: for each two pieces one bit for each
/// displacement at which they may overlap, 31 to a row. Pieces whose cells differ by a displacement
/// alone share them. To build them takes time in the product of the one piece's cells and the
/// other's rows, an eighth each; `blocked` reads one bit, `free` one row along x, and at most 31
/// rows along y and z.
pub type RowTables<'a> = Triangle<'a, PairRows>;

/// Whether a bit of a row is set.
fn has_bit(row: u32, column: u32) -> bool
    requires { column < 32 }
    ensures { IsTrue result ↔ HasBit row column }
{
    (row >> column) & 1 == 1
}

/// Whether no bit of a row is set.
fn is_clear(row: u32) -> bool
    ensures { IsTrue result ↔ ((k : ℕ) → ¬ HasBit row k) }
{
    row == 0
}

/// A column as a number without a sign.
fn as_number(column: i32) -> u32
    requires { pos 0 ≤ℤ column }
    ensures { pos result ≡ column }
{
    column as u32
}

/// Whether no bit of a row is set from a column on.
fn is_clear_from(row: u32, column: i32) -> bool
    ensures { IsTrue result ↔ ((k : ℕ) → column ≤ℤ pos k → ¬ HasBit row k) }
{
    if column >= 32 {
        return true;
    }
    is_clear(row >> as_number(column.max(0)))
}

/// Whether no bit of a row is set before a column.
fn is_clear_before(row: u32, column: i32) -> bool
    ensures { IsTrue result ↔ ((k : ℕ) → (pos k +ℤ pos 1) ≤ℤ column → ¬ HasBit row k) }
{
    column <= 0 || is_clear(row << (32 - as_number(column.min(32))))
}

/// Sets a bit of a row.
fn set_bit(rows: &mut [u32], row: usize, column: u32)
    requires row { row < length rows.old }
    requires column { column < 32 }
    ensures { SetsBit rows.old rows.new row column }
{
    rows[row] |= 1 << column;
}

/// Joins the rows from a first one on with others twice, shifted by `columns` columns and shifted
/// by `further` columns, one row at a time.
fn join_each(rows: &mut [u32], first: usize, others: &[u32], columns: u32, further: u32)
    requires fits { first + length others.now ≤ length rows.old }
    requires columns { columns < 32 }
    requires further { further < 32 }
    ensures { rows.new ≡ joined_from (or_both columns further) first rows.old others.now }
{
    for i in 0..others.len() {
        rows[first + i] = rows[first + i] | (others[i] << columns) | (others[i] << further);
    }
}

/// Eight rows joined with eight others twice, shifted by `columns` columns and shifted by `further`
/// columns.
fn join_eight(rows: u32x8, others: u32x8, columns: u32, further: u32) -> u32x8
    requires columns { columns < 32 }
    requires further { further < 32 }
    requires width { length rows ≡ 8 }
    requires others_width { length others ≡ 8 }
    ensures { result ≡ zip2 (or_both columns further) rows others }
{
    rows | (others << u32x8::splat(columns)) | (others << u32x8::splat(further))
}

/// Joins the rows from a first one on with others twice, shifted by `columns` columns and shifted
/// by `further` columns: what `join_each` gives, but eight rows at a time, each time from the next
/// row on that is not empty, which `next` tells.
fn join(rows: &mut [u32], first: usize, others: &[u32], next: &[usize], columns: u32, further: u32)
    requires fits { first + length others.now ≤ length rows.old }
    requires columns { columns < 32 }
    requires further { further < 32 }
    requires count { length next.now ≡ length others.now + 1 }
    requires next { AreNext others.now next.now }
    ensures { rows.new ≡ joined_from (or_both columns further) first rows.old others.now }
{
    let count = others.len();
    let mut i = next[0];
    while count - i >= 8 {
        let joined = join_eight(
            u32x8::from_slice(&rows[first + i..]),
            u32x8::from_slice(&others[i..]),
            columns,
            further,
        );
        joined.copy_to_slice(&mut rows[first + i..]);
        i += 8;
        // a row that is not empty is not looked up, so that the next eight rows wait for no answer
        if i >= count || others[i] == 0 {
            i = next[i];
        }
    }
    join_each(rows, first + i, &others[i..], columns, further);
}

/// For each displacement of a box whether one piece, so displaced against another one at home,
/// overlaps it, a bit each in a row along x; the box holds all displacements at which it does.
#[derive(Debug, Drop)]
pub struct PairRows {
    extent: Extent,
    // the sides of the box, found once: a query reads them
    wide: u32,
    deep: u32,
    high: u32,
    rows: Vec<u32>,
    ghost sides: { (wide ≡ wide_of extent) × (deep ≡ deep_of extent) × (high ≡ high_of extent) },
    ghost whole: { vec_len rows ≡ row_count_of extent },
    ghost short: { AreShort extent rows.items },
}

impl PairAnswers for PairRows {
    ghost Overlaps = { λ p. IsSet p.extent p.rows.items };

    fn build(alloc: Global, cells: &[Cell], others: &[Cell]) -> Result<PairRows, AllocError> {
        let hull = Extent::around(cells);
        let other_hull = Extent::around(others);
        let extent = hull.displacements_to(other_hull);
        // the displacement from a cell to another one is a sum of two: from the cell to the other
        // hull's least corner, and from this hull's greatest corner to the other cell
        let last = extent.row(other_hull.greatest - hull.greatest);
        let other_rows = rows_from(alloc, extent, hull.greatest, last + 1, others)?;
        let next = next_rows(alloc, &other_rows)?;
        let mut rows = Vec::from_elem(alloc, 0u32, extent.row_count())?;
        let mut i = 0;
        while i < cells.len() {
            let also = last_in_row(cells, i);
            let low = other_hull.least - cells[i];
            let further = other_hull.least - cells[also];
            join(
                &mut rows,
                extent.row(low),
                &other_rows,
                &next,
                extent.column(low),
                extent.column(further),
            );
            i = also + 1;
        }
        Ok(PairRows {
            extent,
            wide: extent.wide() as u32,
            deep: extent.deep() as u32,
            high: extent.high() as u32,
            rows,
        })
    }

    fn blocked(&self, displacement: Cell) -> bool {
        let (x, y, z) = self.extent.units_from(displacement);
        self.holds(x, y, z) && has_bit(self.rows[(z * self.deep + y) as usize], x)
    }

    // a function of its own, so that `blocked` stays small where it is put into a loop over looks
    #[inline(never)]
    fn free(&self, displacement: Cell, direction: Direction) -> bool {
        match direction {
            Direction::PlusX => self.is_clear_plus_x(displacement),
            Direction::MinusX => self.is_clear_minus_x(displacement),
            Direction::PlusY => self.is_clear_across(displacement, Direction::PlusY),
            Direction::MinusY => self.is_clear_across(displacement, Direction::MinusY),
            Direction::PlusZ => self.is_clear_across(displacement, Direction::PlusZ),
            Direction::MinusZ => self.is_clear_across(displacement, Direction::MinusZ),
        }
    }
}

impl PairRows {
    /// Whether what lies as far as this from the least corner, along x, y and z, is in the box.
    fn holds(&self, x: u32, y: u32, z: u32) -> bool
        ensures { IsTrue result
            ↔ ((x < self.now.wide) × (y < self.now.deep) × (z < self.now.high)) }
    {
        x < self.wide && y < self.deep && z < self.high
    }

    /// The row in which a displacement lies, before, in or after the box; an empty one where it
    /// lies in none.
    fn row_at(&self, displacement: Cell) -> u32
        ensures { (k : ℕ) → HasBit result k
            ↔ HasBitIn self.now.extent self.now.rows.items displacement k }
    {
        if self.extent.reaches_row(displacement) {
            self.rows[self.extent.row(displacement)]
        } else {
            0
        }
    }

    /// What `free` answers along +x.
    fn is_clear_plus_x(&self, from: Cell) -> bool
        requires { IsWithin 828 from }
        ensures { IsTrue result
            ↔ HasNoneAhead (IsSet self.now.extent self.now.rows.items) from PlusX }
    {
        let next = self.extent.signed_column(from) + 1;
        is_clear_from(self.row_at(from), next)
    }

    /// What `free` answers along -x.
    fn is_clear_minus_x(&self, from: Cell) -> bool
        requires { IsWithin 828 from }
        ensures { IsTrue result
            ↔ HasNoneAhead (IsSet self.now.extent self.now.rows.items) from MinusX }
    {
        is_clear_before(self.row_at(from), self.extent.signed_column(from))
    }

    /// What `free` answers along a direction in which x stays.
    fn is_clear_across(&self, from: Cell, direction: Direction) -> bool
        requires near { IsWithin 828 from }
        requires across { (k : ℤ) → (along direction k).x ≡ pos 0 }
        ensures { IsTrue result
            ↔ HasNoneAhead (IsSet self.now.extent self.now.rows.items) from direction }
    {
        !self.extent.reaches_x(from)
            || !has_bit(self.rows_ahead(from, direction), self.extent.column(from))
    }

    /// The rows joined in which the displacements lie that are any number of units, at least one,
    /// ahead along a direction.
    fn rows_ahead(&self, from: Cell, direction: Direction) -> u32
        requires { IsWithin 828 from }
        ensures has { (n : ℕ) → HasBit result n → (k : ℕ) × (1 ≤ k)
            × HasBitIn self.now.extent self.now.rows.items (plus from (along direction (pos k))) n }
        ensures all { (n k : ℕ) → 1 ≤ k → IsSet self.now.extent self.now.rows.items
            (plus from (along direction (pos k))) → n ≡ column_of self.now.extent
            (plus from (along direction (pos k))) → HasBit result n }
    {
        let (first, last) = self.extent.units_ahead(from, direction);
        let mut ahead = 0;
        for units in first..=last {
            ahead |= self.row_at(from + direction.along(i32::from(units)));
        }
        ahead
    }
}

/// The first `count` rows of a box, with a bit set for each displacement from a corner to a cell.
fn rows_from(
    alloc: Global,
    extent: Extent,
    corner: Cell,
    count: usize,
    cells: &[Cell],
) -> Result<Vec<u32>, AllocError>
    requires corner { IsWithin 79 corner }
    requires near { All (IsWithin 79) cells.now }
    requires inside { All (λ to. IsInBox extent (minus to corner)) cells.now }
    requires rows { All (λ to. row_of extent (minus to corner) < count) cells.now }
    ensures { IfOk result (λ v. (vec_len v ≡ count) × AreBitsFrom extent v.items corner cells.now) }
{
    let mut rows = Vec::from_elem(alloc, 0u32, count)?;
    for cell in cells {
        let way = *cell - corner;
        set_bit(&mut rows, extent.row(way), extent.column(way));
    }
    Ok(rows)
}

/// The number of the next cell where that one has the y and the z of this one, else of this one:
/// the two are joined at once.
fn last_in_row(cells: &[Cell], i: usize) -> usize
    requires { i < length cells.now }
    ensures { IsInRowOf cells.now i result }
{
    let next = i + 1;
    if next < cells.len() && cells[next].y == cells[i].y && cells[next].z == cells[i].z {
        next
    } else {
        i
    }
}

/// For each row, and for the end of the rows, the first from there on that is not empty.
fn next_rows(alloc: Global, rows: &[u32]) -> Result<Vec<usize>, AllocError>
    requires { length rows.now ≤ 961 }
    ensures { IfOk result (λ v. (vec_len v ≡ length rows.now + 1) × AreNext rows.now v.items) }
{
    let count = rows.len();
    let mut next = Vec::from_elem(alloc, count, count + 1)?;
    for i in (0..count).rev() {
        next[i] = if rows[i] == 0 { next[i + 1] } else { i };
    }
    Ok(next)
}
