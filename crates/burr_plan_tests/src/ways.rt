//! Answers of how pieces meet.

ghost use Rattle.std.specs.Prelude.{IfSome};
ghost use Rattle.burr_voxels.specs.Near.{IsWithin};

use crate::calls::{assembly_of, cells_of, rows_of, tables_of};
use crate::plans::{COMBS, RODS, ROWS, STAIRS, TWINS};
use burr_assembly::Assembly;
use burr_blocking::{Blocking, CellTables, PlainCells, RowTables};
use burr_testing::plans::{CUP, DUO, RING};
use burr_voxels::{Cell, Direction};
use std::alloc::Global;
use std::process::Abort;

/// Two pieces, and a displacement of the first: with a direction, whether the first is free from
/// there, and else whether it overlaps the other there.
#[derive(Clone, Copy, Debug)]
pub struct Question {
    pub pieces: (u8, u8),
    pub at: (i32, i32, i32),
    pub direction: Option<Direction>,
}

/// The displacement with these coordinates, where none of them is above 512.
fn displacement(at: (i32, i32, i32)) -> Option<Cell>
    ensures { IfSome result (IsWithin 512) }
{
    let (x, y, z) = at;
    if x < -512 || 512 < x {
        return None;
    }
    if y < -512 || 512 < y {
        return None;
    }
    if z < -512 || 512 < z {
        return None;
    }
    Some(Cell { x, y, z })
}

/// What is answered; None where there are no such pieces, or the displacement is too large.
pub fn answer<B: Blocking>(blocking: &B, question: &Question) -> Option<bool> {
    let at = displacement(question.at)?;
    let count = blocking.assembly().piece_count();
    let (piece, other) = question.pieces;
    if piece >= count {
        return None;
    }
    if other >= count {
        return None;
    }
    if piece == other {
        return None;
    }
    match question.direction {
        None => Some(blocking.blocked(piece, other, at)),
        Some(direction) => Some(blocking.free(piece, other, at, direction)),
    }
}

/// What answers for an assembly, in each way.
#[derive(Drop)]
struct Ways<'a> {
    plain: PlainCells<'a>,
    tables: CellTables<'a>,
    rows: RowTables<'a>,
}

/// All ways for an assembly.
fn ways_of<'a>(rt: &impl Abort, alloc: Global, assembly: &'a Assembly) -> Ways<'a> {
    Ways {
        plain: cells_of(assembly),
        tables: tables_of(rt, alloc, assembly),
        rows: rows_of(rt, alloc, assembly),
    }
}

/// What all ways answer.
fn answer_alike(rt: &impl Abort, ways: &Ways<'_>, question: &Question) -> Option<bool> {
    let answered = answer(&ways.plain, question);
    assert!(rt; answer(&ways.tables, question) == answered);
    assert!(rt; answer(&ways.rows, question) == answered);
    answered
}

/// Where the first of two cubes side by side is, a direction, and what is answered.
const DUO_ANSWERS: [((i32, i32, i32), Option<Direction>, bool); 8] = [
    ((1, 0, 0), None, true),
    ((0, 0, 0), None, false),
    ((512, 0, 0), None, false),
    ((0, 0, 0), Some(Direction::PlusX), false),
    ((0, 0, 0), Some(Direction::MinusX), true),
    ((1, 0, 0), Some(Direction::PlusX), true),
    ((-512, 0, 0), Some(Direction::PlusX), false),
    ((-512, 512, 0), Some(Direction::PlusX), true),
];

#[test]
fn all_ways_answer_for_two_cubes(rt: HostRuntime) {
    let duo = assembly_of(&rt, rt.alloc(), DUO);
    let ways = ways_of(&rt, rt.alloc(), &duo);
    for (at, direction, wanted) in &DUO_ANSWERS {
        assert_answer(&rt, &ways, *at, *direction, *wanted);
    }
}

#[test]
fn rods_overlap_along_their_length(rt: HostRuntime) {
    let rods = assembly_of(&rt, rt.alloc(), RODS);
    let ways = ways_of(&rt, rt.alloc(), &rods);
    for x in -17..=17 {
        let along = Some(Direction::PlusX);
        assert_answer(&rt, &ways, (x, 1, 0), None, -16 < x && x < 16);
        assert_answer(&rt, &ways, (x, 1, 0), along, 14 < x);
    }
}

/// Asserts what all ways answer where the first piece is here against the second.
fn assert_answer(
    rt: &impl Abort,
    ways: &Ways<'_>,
    at: (i32, i32, i32),
    direction: Option<Direction>,
    wanted: bool,
) {
    let question = Question {
        pieces: (0, 1),
        at,
        direction,
    };
    let answered = answer_alike(rt, ways, &question);
    assert!(rt; answered == Some(wanted), "{question:?}");
}

const DIRECTIONS: [Direction; 6] = [
    Direction::PlusX,
    Direction::MinusX,
    Direction::PlusY,
    Direction::MinusY,
    Direction::PlusZ,
    Direction::MinusZ,
];

/// A coordinate of -17 to 17.
fn coordinate(number: u32) -> i32 {
    (number % 35) as i32 - 17
}

/// The questions of two pieces are numbered: one without a direction and one for each, at all
/// displacements of -17 to 17 a coordinate.
const QUESTIONS: u32 = 7 * 35 * 35 * 35;

/// The question with a number.
fn question_of(pieces: (u8, u8), number: u32) -> Question {
    let place = number / 7;
    Question {
        pieces,
        at: (
            coordinate(place / 1225),
            coordinate(place / 35),
            coordinate(place),
        ),
        direction: DIRECTIONS.get((number % 7) as usize).copied(),
    }
}

/// Asserts that all ways answer alike of any two pieces of a text's assembly, in both orders.
fn assert_all_alike(rt: &impl Abort, alloc: Global, text: &str) {
    let assembly = assembly_of(rt, alloc, text);
    let ways = ways_of(rt, alloc, &assembly);
    let count = u16::from(assembly.piece_count());
    for pair in 0..count * count {
        let pieces = ((pair / count) as u8, (pair % count) as u8);
        if pieces.0 != pieces.1 {
            assert_alike(rt, &ways, pieces);
        }
    }
}

/// Asserts that all ways answer alike of two pieces.
fn assert_alike(rt: &impl Abort, ways: &Ways<'_>, pieces: (u8, u8)) {
    for number in 0..QUESTIONS {
        assert!(rt; answer_alike(rt, ways, &question_of(pieces, number)).is_some());
    }
}

#[test]
fn all_tables_answer_alike(rt: HostRuntime) {
    for text in &[DUO, RING, CUP, RODS] {
        assert_all_alike(&rt, rt.alloc(), text);
    }
}

/// Rows are joined eight at a time.
#[test]
fn all_tables_answer_alike_for_many_rows(rt: HostRuntime) {
    for count in &[1, 7, 8, 9, 16] {
        let rows = "#.#/".repeat(rt.alloc(), *count).expect(&rt, "memory");
        let text = ROWS.replace(rt.alloc(), "?", &rows).expect(&rt, "memory");
        assert_all_alike(&rt, rt.alloc(), &text);
    }
}

#[test]
fn all_tables_answer_alike_for_combs_and_a_hook(rt: HostRuntime) {
    assert_all_alike(&rt, rt.alloc(), COMBS);
}

#[test]
fn all_tables_answer_alike_for_turned_stairs(rt: HostRuntime) {
    assert_all_alike(&rt, rt.alloc(), STAIRS);
}

#[test]
fn all_tables_answer_alike_for_pieces_of_one_form(rt: HostRuntime) {
    assert_all_alike(&rt, rt.alloc(), TWINS);
}
