//! What is put by the bench and by checks and runs of plans, and how that ends, in a word.

use crate::calls::{assembly_of, container_of, rows_of, upgraded};
use crate::sources::input_of;
use crate::tables::{How, Kind, Table, bytes_of, edited, lines_of};
use crate::want::memory_taken;
use burr_assembly::Assembly;
use burr_bench::{Checked, Motion};
use burr_blocking::{Blocking, RowTables};
use burr_container::Container;
use burr_io::{Reading, Writing};
use burr_runs::{BenchFault, Outcome, bench_text, check, read_answers, run_plan, try_plan};
use burr_sheet::{Closing, Sheet};
use burr_testing::Narrow;
use burr_testing::plans::DUO;
use burr_verify::{Accepted, accept, verify};
use burr_voxels::Direction;
use std::alloc::Global;
use std::io::{Cursor, ErrorKind, Read, Write};
use std::process::Abort;

/// How a run ended, in a word.
fn word_of(outcome: Outcome) -> &'static str {
    match outcome {
        Outcome::Apart => "Apart",
        Outcome::Waiting => "Waiting",
        Outcome::Trapped => "Trapped",
        Outcome::Stopped => "Stopped",
        Outcome::Refused => "Refused",
    }
}

/// Why a run of bare code could not end, in a word.
fn word_of_fault(fault: BenchFault) -> &'static str {
    match fault {
        BenchFault::Read => "Read",
        BenchFault::TooLong => "TooLong",
        BenchFault::Write => "Write",
        BenchFault::Memory => "Memory",
    }
}

/// Runs an input's bare code and puts its sheet.
pub fn put_bare<R: Read, W: Write>(alloc: Global, reader: &mut R, writer: &mut W) -> &'static str {
    match bench_text(alloc, &mut Reading::new(reader), &mut Writing::new(writer)) {
        Ok(outcome) => word_of(outcome),
        Err(fault) => word_of_fault(fault),
    }
}

/// Checks a plan and puts the line of it.
fn put_check<B: Blocking, W: Write>(
    container: &Container<'_>,
    blocking: &B,
    writer: &mut W,
) -> &'static str {
    match check(container, blocking, &mut Writing::new(writer)) {
        Ok(true) => "accepted",
        Ok(false) => "refused",
        Err(_) => "Write",
    }
}

/// Runs a plan, where it is accepted, and puts its sheet.
pub fn put_run<B: Blocking, W: Write>(
    container: &Container<'_>,
    blocking: &B,
    answers: &[i32],
    writer: &mut W,
) -> &'static str {
    match accept(container, blocking) {
        Ok(accepted) => put_accepted(&accepted, answers, writer),
        Err(_) => "refused",
    }
}

/// Runs an accepted plan and puts its sheet.
fn put_accepted<B: Blocking, W: Write>(
    accepted: &Accepted<'_, '_, B>,
    answers: &[i32],
    writer: &mut W,
) -> &'static str {
    match run_plan(accepted, answers, &mut Writing::new(writer)) {
        Ok(outcome) => word_of(outcome),
        Err(_) => "Write",
    }
}

/// Runs a plan on the bench that tests each move, and puts its sheet.
fn put_tried<B: Blocking, W: Write>(
    container: &Container<'_>,
    blocking: &B,
    answers: &[i32],
    writer: &mut W,
) -> &'static str {
    let Ok(mut bench) = Checked::start(container, blocking) else {
        return "refused";
    };
    match try_plan(&mut bench, answers, &mut Writing::new(writer)) {
        Ok(outcome) => word_of(outcome),
        Err(_) => "Write",
    }
}

/// Checks, runs or tries a plan.
fn put_judged<B: Blocking, W: Write>(
    table: &Table,
    container: &Container<'_>,
    blocking: &B,
    answers: &[i32],
    writer: &mut W,
) -> &'static str {
    match (table.how, table.kind) {
        (How::Tried, _) => put_tried(container, blocking, answers, writer),
        (_, Kind::Run) => put_run(container, blocking, answers, writer),
        _ => put_check(container, blocking, writer),
    }
}

/// The answers of a case; none where it has edits.
fn answers_of(rt: &impl Abort, alloc: Global, kind: Kind, given: &str) -> Vec<i32> {
    match kind {
        Kind::Run => {
            let text = lines_of(rt, alloc, given);
            read_answers(alloc, text.as_bytes()).expect(rt, "answers")
        }
        _ => Vec::new(alloc),
    }
}

/// The bytes of a case's plan.
pub fn plan_of(rt: &impl Abort, alloc: Global, table: &Table, given: &str) -> Vec<u8> {
    let bytes = match table.kind {
        Kind::Run => bytes_of(rt, alloc, table.plan),
        _ => bytes_of(rt, alloc, &edited(rt, alloc, table.plan, given)),
    };
    match table.how {
        How::Upgraded => upgraded(rt, alloc, &bytes),
        _ => bytes,
    }
}

/// Checks or runs a case's plan.
fn put_plan<W: Write>(
    rt: &impl Abort,
    alloc: Global,
    table: &Table,
    given: &str,
    writer: &mut W,
) -> &'static str {
    let bytes = plan_of(rt, alloc, table, given);
    let answers = answers_of(rt, alloc, table.kind, given);
    let assembly = assembly_of(rt, alloc, table.assembly);
    let container = container_of(rt, &bytes);
    put_judged(
        table,
        &container,
        &rows_of(rt, alloc, &assembly),
        &answers,
        writer,
    )
}

/// Puts what comes of a case.
pub fn put<W: Write>(
    rt: &impl Abort,
    alloc: Global,
    table: &Table,
    given: &str,
    writer: &mut W,
) -> &'static str {
    match table.kind {
        Kind::Bare => {
            let input = input_of(rt, alloc, table, given);
            put_bare(alloc, &mut input.as_bytes(), writer)
        }
        _ => put_plan(rt, alloc, table, given, writer),
    }
}

/// Whether a case puts this, after the word for its end.
pub fn puts(rt: &impl Abort, alloc: Global, table: &Table, given: &str, wanted: &str) -> bool {
    let (end, text) = wanted.split_once(" | ").expect(rt, "a text");
    let mut written = Vec::new(alloc);
    let word = put(rt, alloc, table, given, &mut written);
    word == end && written.as_slice() == text.as_bytes()
}

/// Whether of what a case puts a sink has the front that it has room for, whether it then fails or
/// takes no more.
pub fn puts_fronts(
    rt: &impl Abort,
    alloc: Global,
    table: &Table,
    given: &str,
    wanted: &str,
) -> bool {
    let (end, text) = wanted.split_once(" | ").expect(rt, "a text");
    for room in 0..=text.len() {
        let end = if room < text.len() { "Write" } else { end };
        let front = text.as_bytes().get(..room).expect(rt, "a front");
        let other = Some(ErrorKind::Other);
        if !puts_front(rt, alloc, table, given, (end, front), None) {
            return false;
        }
        if !puts_front(rt, alloc, table, given, (end, front), other) {
            return false;
        }
    }
    true
}

/// Whether a case ends so whose text meets a writer with room for a front of it.
fn puts_front(
    rt: &impl Abort,
    alloc: Global,
    table: &Table,
    given: &str,
    (end, front): (&str, &[u8]),
    fault: Option<ErrorKind>,
) -> bool {
    let mut writer = Narrow::new(alloc, front.len(), fault);
    put(rt, alloc, table, given, &mut writer) == end && writer.taken.as_slice() == front
}

/// Whether a case puts this while no memory can be had, or first with ample memory, where all that it
/// works on was made before.
pub fn puts_poorly(
    rt: &impl Abort,
    alloc: Global,
    table: &Table,
    given: &str,
    wanted: &str,
) -> bool {
    let bytes = plan_of(rt, alloc, table, given);
    let answers = answers_of(rt, alloc, table.kind, given);
    let assembly = assembly_of(rt, alloc, table.assembly);
    let rows = rows_of(rt, alloc, &assembly);
    let container = container_of(rt, &bytes);
    let wanted = wanted.split_once(" | ").expect(rt, "a text");
    if matches!(table.how, How::FartherDown) {
        return puts_farther_down(table, &container, &rows, &answers, wanted);
    }
    let _taken = memory_taken(rt, alloc);
    puts_in_place(table, &container, &rows, &answers, wanted)
}

/// How many bytes farther down the stack a plan is judged and run with ample memory.
const DEEPER: usize = 32_768;

/// The same farther down the stack, so that it has grown as far as is needed: it can't grow once all
/// memory was taken, nor when it is given back.
#[inline(never)]
fn puts_farther_down(
    table: &Table,
    container: &Container<'_>,
    rows: &RowTables<'_>,
    answers: &[i32],
    wanted: (&str, &str),
) -> bool {
    // what is looked at after the call stands above it on the stack
    let mut above = [0u8; DEEPER];
    let count = wanted.1.len().min(DEEPER);
    above[..count].copy_from_slice(&wanted.1.as_bytes()[..count]);
    puts_in_place(table, container, rows, answers, wanted)
        && above.starts_with(&wanted.1.as_bytes()[..count])
}

/// Whether a plan puts this, and ends so, in a place of 128 bytes; and is refused where that says so.
fn puts_in_place(
    table: &Table,
    container: &Container<'_>,
    rows: &RowTables<'_>,
    answers: &[i32],
    (end, text): (&str, &str),
) -> bool {
    let mut room = [0; 128];
    let mut written = Cursor::new(room.as_mut_slice());
    let word = put_judged(table, container, rows, answers, &mut written);
    let count = written.position() as usize;
    verify(container, rows).is_err() == (end == "refused")
        && word == end
        && room.get(..count) == Some(text.as_bytes())
}

// A sheet that a sink has failed.

#[test]
fn stays_failed(rt: HostRuntime) {
    assert_stays_failed(&rt, rt.alloc(), &assembly_of(&rt, rt.alloc(), DUO));
}

/// Asserts that a sheet that a sink has failed puts nothing into another one.
fn assert_stays_failed(rt: &impl Abort, alloc: Global, duo: &Assembly) {
    let mut sheet = Sheet::new(duo);
    let away = Motion {
        group: 1,
        tray: 0,
        dir: Direction::MinusX,
        out: true,
    };
    let mut narrow = Narrow::new(alloc, 3, None);
    assert!(rt; sheet.motion(away, &mut Writing::new(&mut narrow)).is_err());
    let mut written = Vec::new(alloc);
    let closed = sheet.close(Closing::Apart, 1, &mut Writing::new(&mut written));
    assert!(rt; closed.is_err() && written.is_empty());
}
