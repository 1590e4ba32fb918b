//! What calls of the bench tell, and its state after them.

use crate::calls::{assembly_of, container_of, rows_of};
use crate::puts::plan_of;
use crate::tables::{Table, bytes_of, expanded};
use burr_bench::{Checked, Machine};
use burr_blocking::RowTables;
use burr_code::Placement;
use burr_testing::plans::DUO;
use burr_verify::accept;
use burr_voxels::Cell;
use std::alloc::{AllocError, Global};
use std::fmt::Debug;
use std::process::Abort;

/// The bench of an assembly that has rows of bits.
type Bench<'a, 'c> = Checked<'a, RowTables<'c>>;

#[test]
fn tells_what_comes_of_calls(rt: HostRuntime) {
    let duo = assembly_of(&rt, rt.alloc(), DUO);
    assert_scripts(&rt, rt.alloc(), &rows_of(&rt, rt.alloc(), &duo));
}

/// Asserts each script.
fn assert_scripts(rt: &impl Abort, alloc: Global, duo: &RowTables<'_>) {
    for script in SCRIPTS.split("\n\n") {
        assert_script(rt, alloc, duo, script);
    }
}

/// Asserts a script: its heading, its code, and its lines.
fn assert_script(rt: &impl Abort, alloc: Global, duo: &RowTables<'_>, script: &str) {
    let script = expanded(rt, alloc, script);
    let (_heading, rest) = script.split_once('\n').expect(rt, "a heading");
    let (code, lines) = rest.split_once('\n').expect(rt, "code");
    let code = bytes_of(rt, alloc, code);
    assert!(rt; code.len() <= 4096);
    assert_told(rt, alloc, &mut Checked::bare(&code, duo), lines);
}

/// Asserts what the bench tells at each line.
fn assert_told(rt: &impl Abort, alloc: Global, bench: &mut Bench<'_, '_>, lines: &str) {
    for line in lines.lines() {
        assert_line(rt, alloc, bench, line);
    }
}

/// Asserts what the bench tells: a line is what is done, and after ` | ` what is told.
fn assert_line(rt: &impl Abort, alloc: Global, bench: &mut Bench<'_, '_>, line: &str) {
    let (done, wanted) = line.split_once(" | ").expect(rt, "what is told");
    let words = words_of(alloc, bench, done).expect(rt, "memory");
    assert!(rt; words.as_str() == wanted, "{line}");
}

/// What a bench tells: at `call` of a call without an answer, at a number of one with this answer,
/// and else of a part of its state.
fn words_of(alloc: Global, bench: &mut Bench<'_, '_>, done: &str) -> Result<String, AllocError> {
    let answer = answer_of(done);
    if done == "call" || answer.is_some() {
        shown(alloc, bench.step(answer))
    } else {
        words_of_state(alloc, bench, done)
    }
}

/// The answer that a word of a script gives.
fn answer_of(done: &str) -> Option<i32> {
    match done {
        "-1" => Some(-1),
        "0" => Some(0),
        "1" => Some(1),
        "2" => Some(2),
        "3" => Some(3),
        _ => None,
    }
}

/// What a bench tells of a part of its state.
fn words_of_state(alloc: Global, bench: &Bench<'_, '_>, part: &str) -> Result<String, AllocError> {
    match part {
        "at" => shown(alloc, (bench.steps(), bench.pc(), bench.ended())),
        "held" => shown(alloc, (bench.tray(), bench.grip(), bench.operands())),
        "run" => shown(alloc, (bench.depth(), bench.proc(), bench.budget())),
        "slots" => shown(alloc, (bench.slot(0), bench.slot(3), bench.slot(7))),
        _ => shown(alloc, [place(bench, 0), place(bench, 1), place(bench, 2)]),
    }
}

/// A value in words.
fn shown<T: Debug + Drop>(alloc: Global, value: T) -> Result<String, AllocError> {
    format!(in alloc; "{value:?}")
}

/// Where a piece is; None where there is no such piece.
fn place(bench: &Bench<'_, '_>, piece: u8) -> Option<Option<(u8, Cell)>> {
    if piece >= bench.assembly().piece_count() {
        return None;
    }
    match bench.place(piece) {
        Placement::Apart => Some(None),
        Placement::On { tray, position } => Some(Some((tray, position))),
    }
}

// What calls of the bench tell, and its state after them.

/// Code for the duo, and lines of what is done and told. A blank line is between each and the
/// next.
pub const SCRIPTS: &str = "\
# the duo is taken apart
10 00000001 12 01 01 00
0 | Ok(Again)
call | Ok(Went(None))
call | Ok(Went(Some(Motion { group: 1, tray: 0, dir: MinusX, out: true })))
-1 | Ok(Again)
call | Ok(Went(None))
call | Ok(Ended)
1 | Ok(Ended)

# a trap is told for good
10 00000001 12 00 01
call | Ok(Went(None))
3 | Ok(Again)
call | Err(NotFree)
3 | Err(NotFree)
call | Err(NotFree)

# steps until a piece is in the way
10 00000001 11 01 11 00 11 00
call | Ok(Went(None))
call | Ok(Went(Some(Motion { group: 1, tray: 0, dir: MinusX, out: false })))
call | Ok(Went(Some(Motion { group: 1, tray: 0, dir: PlusX, out: false })))
call | Err(Collision)
0 | Err(Collision)

# no empty group is stepped
11 01
call | Err(BadGroup)

# the whole tray is stepped
10 00000003 11 04
call | Ok(Went(None))
call | Ok(Went(Some(Motion { group: 3, tray: 0, dir: PlusZ, out: false })))
places | [Some(Some((0, Cell { x: 0, y: 0, z: 1 }))), \
Some(Some((0, Cell { x: 0, y: 0, z: 1 }))), None]

# the state: at the start, with a grip, and after the motion out
10 00000002 12 00 07
held | (0, 0, [])
run | (1, 0, 1000000)
slots | (None, None, None)
places | [Some(Some((0, Cell { x: 0, y: 0, z: 0 }))), \
Some(Some((0, Cell { x: 0, y: 0, z: 0 }))), None]
call | Ok(Went(None))
held | (0, 2, [])
call | Ok(Went(Some(Motion { group: 2, tray: 0, dir: PlusX, out: true })))
held | (0, 0, [])
places | [Some(None), Some(None), None]

# where it stands: a `grip`, and no instruction
10 00000001 14 01
at | (0, 0, false)
call | Ok(Went(None))
at | (1, 5, false)
call | Err(BadCode)
at | (1, 5, false)

# a fitting answer: ask 0 2, store 3, load 3, push 5, sub
22 0000 0002 03 03 02 03 01 0005 05
call | Ok(Asks(0, 2))
3 | Ok(Again)
-1 | Ok(Again)
at | (0, 0, false)
2 | Ok(Went(None))
held | (0, 0, [2])
call | Ok(Went(None))
call | Ok(Went(None))
call | Ok(Went(None))
call | Ok(Went(None))
slots | (None, Some(2), None)
held | (0, 0, [-3])
at | (5, 13, false)

# the bench ends 256 units from home
10 00000001 units
call | Ok(Went(None))
moves
call | Err(OffBench)
places | [Some(Some((0, Cell { x: -256, y: 0, z: 0 }))), \
Some(Some((0, Cell { x: 0, y: 0, z: 0 }))), None]

# numbers: NumberRange
01 7fff 01 0001 04
call | Ok(Went(None))
call | Ok(Went(None))
call | Err(NumberRange)
at | (2, 6, false)

# numbers: NumberRange
01 8001 01 0001 05
call | Ok(Went(None))
call | Ok(Went(None))
call | Err(NumberRange)
at | (2, 6, false)

# numbers: MissingOperand
01 0001 04
call | Ok(Went(None))
call | Err(MissingOperand)
at | (1, 3, false)

# numbers: MissingOperand
06
call | Err(MissingOperand)
at | (0, 0, false)

# numbers: MissingOperand
03 07
call | Err(MissingOperand)
at | (0, 0, false)

# numbers: EmptySlot
02 07
call | Err(EmptySlot)
at | (0, 0, false)

# numbers: StackFull
01 0001 01 0001 01 0001 01 0001 01 0001 01 0001 01 0001 01 0001 01 0001
call | Ok(Went(None))
call | Ok(Went(None))
call | Ok(Went(None))
call | Ok(Went(None))
call | Ok(Went(None))
call | Ok(Went(None))
call | Ok(Went(None))
call | Ok(Went(None))
call | Err(StackFull)
at | (8, 24, false)

# the flow of control: Misplaced
25
call | Err(Misplaced)
at | (0, 0, false)

# the flow of control: BadCall
24 01
call | Err(BadCall)
at | (0, 0, false)

# the flow of control: BadJump
20 0000
call | Err(BadJump)
at | (0, 0, false)

# the flow of control: BadJump
21 00 0000
call | Err(BadJump)
at | (0, 0, false)

# the flow of control: BadJump
23 02 0000 0001
call | Err(BadJump)
at | (0, 0, false)

# the flow of control: NotApart
00
call | Err(NotApart)
at | (0, 0, false)

# the flow of control: BadGroup
10 00000001 13 00 11 00
call | Ok(Went(None))
call | Ok(Went(None))
call | Err(BadGroup)
at | (2, 7, false)";

// The machine beside the bench that tests each move: what both tell and show after each call, and
// the machine taken back and on again at each step.

/// Answers, those that fit a question and those that do not.
const ANSWERS: [i32; 4] = [-1, 2, 1, 0];

/// How many steps the runs of a plan after edits make.
pub fn said_of_both(rt: &impl Abort, alloc: Global, table: &Table, edits: &str) -> String {
    let bytes = plan_of(rt, alloc, table, edits);
    let assembly = assembly_of(rt, alloc, table.assembly);
    let steps = steps_of_both(rt, &rows_of(rt, alloc, &assembly), &bytes);
    format!(in alloc; "{steps}").expect(rt, "memory")
}

/// Runs a container's plan on both; how many steps the runs make.
fn steps_of_both(rt: &impl Abort, rows: &RowTables<'_>, bytes: &[u8]) -> u64 {
    let container = container_of(rt, bytes);
    let Ok(accepted) = accept(&container, rows) else {
        panic!(rt; "refused");
    };
    let Ok(mut bench) = Checked::start(&container, rows) else {
        panic!(rt; "another assembly");
    };
    let mut machine = Machine::start(&accepted);
    for _ in 0..600u32 {
        step_both(rt, &mut machine, &mut bench);
    }
    machine.steps()
}

/// Takes both a step on, with answers where they ask.
fn step_both(rt: &impl Abort, machine: &mut Machine<'_>, bench: &mut Checked<'_, RowTables<'_>>) {
    call_both(rt, machine, bench, None);
    for answer in &ANSWERS {
        if machine.question().is_some() {
            call_both(rt, machine, bench, Some(*answer));
        }
    }
}

/// Calls both, and asserts that they tell and show the same. If it made a step, the machine first goes
/// back, shows what the bench still does, and makes the step again.
fn call_both(
    rt: &impl Abort,
    machine: &mut Machine<'_>,
    bench: &mut Checked<'_, RowTables<'_>>,
    answer: Option<i32>,
) {
    let (told, undo) = machine.step_recorded(answer);
    if let Some(undo) = undo {
        machine.undo(undo);
        assert!(rt; shows_same(machine, bench));
        assert!(rt; machine.step(answer) == told);
    }
    assert!(rt; bench.step(answer) == Ok(told));
    assert!(rt; shows_same(machine, bench));
}

/// Whether both show the same, each slot and each piece's place included.
fn shows_same(machine: &Machine<'_>, bench: &Checked<'_, RowTables<'_>>) -> bool {
    for slot in 0..8 {
        if machine.slot(slot) != bench.slot(slot) {
            return false;
        }
    }
    let pieces = machine.assembly().piece_count();
    if bench.assembly().piece_count() != pieces {
        return false;
    }
    for piece in 0..pieces {
        if machine.place(piece) != bench.place(piece) {
            return false;
        }
    }
    machine.assembly().name() == bench.assembly().name() && stands_same(machine, bench)
}

/// Whether both show the same of where they stand and of what they hold.
fn stands_same(machine: &Machine<'_>, bench: &Checked<'_, RowTables<'_>>) -> bool {
    machine.steps() == bench.steps()
        && machine.ended() == bench.ended()
        && machine.depth() == bench.depth()
        && machine.proc() == bench.proc()
        && machine.pc() == bench.pc()
        && machine.tray() == bench.tray()
        && machine.grip() == bench.grip()
        && machine.operands() == bench.operands()
}
