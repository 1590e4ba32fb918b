//! Directions and orientations, their numbers and names, turned cells, and what is ahead of a cell.
use crate::asserts::{assert_at, assert_case};
use burr_voxels::{Cell, Cells, Direction, Orientation};
use std::process::Abort;

const NAMES: [[u8; 2]; 6] = [*b"+x", *b"-x", *b"+y", *b"-y", *b"+z", *b"-z"];

/// Names, and where the orientation of a name takes the cell 2, 1, 0, if there is one.
const TURNS: [(&str, Option<Cell>); 8] = [
    ("+x+y+z", Some(Cell { x: 2, y: 1, z: 0 })),
    ("-y+x+z", Some(Cell { x: 1, y: -2, z: 0 })),
    ("+y+z+x", Some(Cell { x: 0, y: 2, z: 1 })),
    ("+x+x+z", None),
    ("-x+y+z", None),
    ("", None),
    ("+x+y+z ", None),
    ("+x+y+zz", None),
];

/// Where the orientation of a name takes the cell 2, 1, 0.
fn turned(name: &str) -> Option<Cell> {
    let orientation = Orientation::parse(name.as_bytes())?;
    Some(orientation.turn(Cell { x: 2, y: 1, z: 0 }))
}

#[test]
fn turns_cells(rt: HostRuntime) {
    for (name, cell) in &TURNS {
        assert_case(&rt, name, turned(name) == *cell);
    }
}

/// How many orientations have names that begin with those of two directions. Each has the name that
/// it is read from.
fn orientations_of(rt: &impl Abort, [a, b]: [u8; 2], [c, d]: [u8; 2]) -> u32 {
    let mut count = 0u32;
    for [e, f] in &NAMES {
        let name = [a, b, c, d, *e, *f];
        if let Some(orientation) = Orientation::parse(&name) {
            assert!(rt; orientation.name() == name);
            count = count.wrapping_add(1);
        }
    }
    count
}

#[test]
fn knows_24_orientations(rt: HostRuntime) {
    let mut count = 0u32;
    for first in &NAMES {
        for second in &NAMES {
            count = count.wrapping_add(orientations_of(&rt, *first, *second));
        }
    }
    assert!(rt; count == 24);
}

#[test]
fn orients_by_directions(rt: HostRuntime) {
    assert!(rt; Orientation::of(Direction::PlusY, Direction::MinusX, Direction::PlusZ).is_some());
    assert!(rt; Orientation::of(Direction::PlusY, Direction::PlusX, Direction::PlusZ).is_none());
}

/// Whether a direction has a number and a name, and is the one of this name.
fn is_named(direction: Direction, number: u8, name: [u8; 2]) -> bool {
    direction.number() == number
        && direction.name() == name
        && Direction::named(&name) == Some(direction)
}

#[test]
fn numbers_and_names_directions(rt: HostRuntime) {
    for number in 0..=7u8 {
        let is_right = match (Direction::of(number), NAMES.get(usize::from(number))) {
            (Some(direction), Some(name)) => is_named(direction, number, *name),
            (None, None) => true,
            _ => false,
        };
        assert_at(&rt, usize::from(number), is_right);
    }
    assert!(rt; Direction::named(b"+w").is_none());
}

#[test]
fn goes_along_directions(rt: HostRuntime) {
    assert!(rt; Direction::MinusY.unit() == Cell { x: 0, y: -1, z: 0 });
    assert!(rt; Direction::MinusZ.along(-3) == Cell { x: 0, y: 0, z: 3 });
}

/// Cells, and whether one lies ahead of 1, 2, 3 along +y.
const AHEAD: [(Cell, bool); 5] = [
    (Cell { x: 1, y: 5, z: 3 }, true),
    (Cell { x: 1, y: 2, z: 3 }, false),
    (Cell { x: 2, y: 5, z: 3 }, false),
    (Cell { x: 1, y: 5, z: 4 }, false),
    (Cell { x: 1, y: 0, z: 3 }, false),
];

#[test]
fn sees_what_is_ahead(rt: HostRuntime) {
    let from = Cell { x: 1, y: 2, z: 3 };
    for (cell, is_ahead) in &AHEAD {
        assert!(rt; cell.is_ahead_of(from, Direction::PlusY) == *is_ahead);
        assert!(rt; from.is_ahead_of(*cell, Direction::MinusY) == *is_ahead);
    }
    assert!(rt; !Cell::ORIGIN.is_ahead_of(Cell::ORIGIN + from, Direction::MinusX));
}

#[test]
fn keeps_cells(rt: HostRuntime) {
    let list = [Cell { x: 1, y: 0, z: 0 }, Cell::ORIGIN];
    let cells = Cells::new(Vec::from_array(rt.alloc(), list).expect(&rt, "memory"));
    assert!(rt; cells.as_slice() == list.as_slice());
    assert!(rt; cells.into_vec().len() == 2);
}
