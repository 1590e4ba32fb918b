//! Pieces by their names and by their trays, and where two of them meet.

use burr_assembly::Assembly;
use burr_code::is_in_set;
use burr_lines::PlanText;
use burr_verify::{Offset, PointState};
use burr_voxels::{Cell, Direction};
use std::fmt;

/// Some of an assembly's pieces: bit p is piece p.
#[derive(Clone, Copy, Drop)]
pub struct Group<'a>(pub &'a Assembly, pub u32);

impl fmt::Display for Group<'_> {
    fn fmt<W: fmt::Write>(&self, f: &mut fmt::Formatter<W>) -> fmt::Result {
        if self.1 == 0 {
            return write!(f, "nothing");
        }
        let mut separator = "";
        for piece in 0..self.0.piece_count() {
            if is_in_set(self.1, piece) {
                let name = self.0.piece_name(piece);
                write!(f, "{separator}{name}")?;
                separator = ", ";
            }
        }
        Ok(())
    }
}

/// Where a piece is, without regard to how far from home: apart, or in a tray.
#[derive(Clone, Copy, PartialEq, Drop)]
pub struct Whereabouts(pub Option<u8>);

impl fmt::Display for Whereabouts {
    fn fmt<W: fmt::Write>(&self, f: &mut fmt::Formatter<W>) -> fmt::Result {
        match self.0 {
            None => write!(f, "apart"),
            Some(tray) => write!(f, "in tray {tray}"),
        }
    }
}

// Where two pieces meet.

/// Where a piece meets another one: the cell, and after how many units along the direction.
#[derive(Clone, Copy, Drop)]
pub struct Meeting {
    pub cell: Offset,
    pub units: i64,
}

/// Where a piece of the current tray that goes along a direction first meets another one, after one unit
/// or more: of the meetings after as many units that of its first cell.
pub fn first_meeting(
    plan: &PlanText<'_, '_>,
    piece: u8,
    other: u8,
    direction: Direction,
    state: &PointState,
) -> Option<Meeting> {
    let offset = state.place(piece).position_in(state.tray)?;
    let other_offset = state.place(other).position_in(state.tray)?;
    let others = plan.cells(other);
    let cells = plan.cells(piece).iter().map(|cell| lies_at(cell, offset));
    let meetings = cells.filter_map(|cell| meeting_from(cell, direction, others, other_offset));
    meetings.min_by_key(|meeting| meeting.units)
}

/// Where a cell that goes along a direction first meets a piece with these cells, so far from home.
fn meeting_from(
    from: Offset,
    direction: Direction,
    cells: &[Cell],
    offset: Offset,
) -> Option<Meeting> {
    let cells = cells.iter().map(|cell| lies_at(cell, offset));
    let meetings = cells.filter_map(|cell| meeting_at(cell, from, direction));
    meetings.min_by_key(|meeting| meeting.units)
}

/// That a cell which goes along a direction meets this one; none where it does not come there.
fn meeting_at(cell: Offset, from: Offset, direction: Direction) -> Option<Meeting> {
    let x = cell.x.saturating_sub(from.x);
    let y = cell.y.saturating_sub(from.y);
    let z = cell.z.saturating_sub(from.z);
    let (units, rest) = match direction {
        Direction::PlusX => (x, [y, z]),
        Direction::MinusX => (0i64.saturating_sub(x), [y, z]),
        Direction::PlusY => (y, [x, z]),
        Direction::MinusY => (0i64.saturating_sub(y), [x, z]),
        Direction::PlusZ => (z, [x, y]),
        Direction::MinusZ => (0i64.saturating_sub(z), [x, y]),
    };
    (rest == [0, 0] && 1 <= units).then_some(Meeting { cell, units })
}

/// Where a cell of a piece lies that is so far from home.
pub fn lies_at(cell: &Cell, offset: Offset) -> Offset {
    Offset {
        x: offset.x.saturating_add(i64::from(cell.x)),
        y: offset.y.saturating_add(i64::from(cell.y)),
        z: offset.z.saturating_add(i64::from(cell.z)),
    }
}
