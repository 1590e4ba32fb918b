//! What is said of plans.

use crate::calls::{assembly_of, container_of, rows_of, tables_of, upgraded};
use crate::looks::words_with_looks;
use crate::puts::{plan_of, put};
use crate::tables::{How, Kind, Table, table_of};
use burr_assembly::Assembly;
use burr_bench::Trap;
use burr_container::Container;
use burr_forms::Point;
use burr_frames::{Break, Miss, Rule};
use burr_judge::StepFault;
use burr_runs::{AnswersFault, BenchFault};
use burr_step::StepRefusal;
use burr_verify::{Refusal, fits_assembly, verify};
use std::alloc::{AllocError, Global};
use std::process::Abort;

/// What is said of a plan after edits: `accepted`, or the refusal, whose pieces are named by their
/// numbers; with how many looks that took, if the kind asks.
pub fn said_of_judge(rt: &impl Abort, alloc: Global, table: &Table, edits: &str) -> String {
    let bytes = plan_of(rt, alloc, table, edits);
    let assembly = assembly_of(rt, alloc, table.assembly);
    words_of_kind(rt, alloc, table.kind, &container_of(rt, &bytes), &assembly)
}

/// What is said of a container's plan.
fn words_of_kind(
    rt: &impl Abort,
    alloc: Global,
    kind: Kind,
    container: &Container<'_>,
    assembly: &Assembly,
) -> String {
    let words = match kind {
        Kind::Fit => words_of(alloc, fits_assembly(container, assembly)),
        Kind::Looks => return words_of_both(rt, alloc, container, assembly),
        _ => words_of(alloc, verify(container, &rows_of(rt, alloc, assembly))),
    };
    words.expect(rt, "memory")
}

/// What is said of a container's plan with its looks, over both kinds of tables.
fn words_of_both(
    rt: &impl Abort,
    alloc: Global,
    container: &Container<'_>,
    assembly: &Assembly,
) -> String {
    let words = words_with_looks(rt, alloc, container, &rows_of(rt, alloc, assembly));
    let others = words_with_looks(rt, alloc, container, &tables_of(rt, alloc, assembly));
    assert!(rt; others == words);
    words
}

/// A verdict in words.
pub fn words_of(alloc: Global, verdict: Result<(), Refusal>) -> Result<String, AllocError> {
    match verdict {
        Ok(()) => String::from_str(alloc, "accepted"),
        Err(refusal) => words_of_refusal(alloc, &refusal),
    }
}

/// A refusal in words, as `V15 proc 0 pc 24 pieces 0 1 point 0 1`.
fn words_of_refusal(alloc: Global, refusal: &Refusal) -> Result<String, AllocError> {
    let Refusal { proc, pc, rule, .. } = refusal;
    let mut words = format!(in alloc; "{rule} proc {proc} pc {pc}")?;
    if let Some((piece, other)) = refusal.pieces {
        write!(words, " pieces {piece} {other}")?;
    }
    if let Some(point) = &refusal.point {
        push_point(&mut words, point)?;
    }
    Ok(words)
}

/// Adds a point in words, as ` point 0 1`.
fn push_point(words: &mut String, point: &Point) -> Result<(), AllocError> {
    words.push_str(" point")?;
    for number in point.iter() {
        write!(words, " {number}")?;
    }
    Ok(())
}

// What faults say of themselves.

/// What the faults of a run of bare code, of reading answers, and of a command say, why a stepper
/// refuses one, why a plan is refused, and why an instruction traps.
const MESSAGES: &str = "\
the input cannot be read
the input has more than 16777216 bytes
the output cannot be written
no memory
line 1 is no answer
line 4294967296 is no answer
no memory
the output cannot be written
no memory
S1: the run has ended
S2: the run waits for an answer
S3: no question stands that the answer fits
S4: there are not so many steps to go back
no memory
the frame is not met
V15 is broken
V15 is broken in procedure 0 at 24
after the unit step two pieces of the tray would overlap
a piece of the group is not in the current tray, is apart, or isn't there
the grip isn't free along the direction of the way out
the grip is empty, or for a way out the whole tray
the tray that the group would go to has pieces
there are fewer operands than the instruction takes
the operands would be more than eight
the slot is empty
there is no such label
no instruction stands there
there is no such procedure, or its number is not above that of the running one
the count of a loop is below 0
the result lies outside -32,767 to 32,767
after the unit step a piece would lie outside -256 to 256 a coordinate
the run would end while a piece is not apart
`halt` stands outside main, or `ret` in it
the slot is a parameter of the procedure
";

/// All traps, by their numbers.
const TRAPS: [Trap; 17] = [
    Trap::Collision,
    Trap::GripOff,
    Trap::NotFree,
    Trap::BadGroup,
    Trap::TrayInUse,
    Trap::MissingOperand,
    Trap::StackFull,
    Trap::EmptySlot,
    Trap::BadJump,
    Trap::BadCode,
    Trap::BadCall,
    Trap::BadCount,
    Trap::NumberRange,
    Trap::OffBench,
    Trap::NotApart,
    Trap::Misplaced,
    Trap::ParamWritten,
];

#[test]
fn messages_of_faults(rt: HostRuntime) {
    let messages = messages(rt.alloc()).expect(&rt, "memory");
    assert!(rt; messages.as_str() == MESSAGES, "{messages}");
}

/// The message of each fault, a line each.
fn messages(alloc: Global) -> Result<String, AllocError> {
    let mut lines = String::new(alloc);
    for fault in &[
        BenchFault::Read,
        BenchFault::TooLong,
        BenchFault::Write,
        BenchFault::Memory,
    ] {
        writeln!(lines, "{fault}")?;
    }
    for fault in &[
        AnswersFault::Line(1),
        AnswersFault::Line(4_294_967_296),
        AnswersFault::Memory,
    ] {
        writeln!(lines, "{fault}")?;
    }
    for fault in &[StepFault::Write, StepFault::Memory] {
        writeln!(lines, "{fault}")?;
    }
    for refusal in &[
        StepRefusal::S1,
        StepRefusal::S2,
        StepRefusal::S3,
        StepRefusal::S4,
        StepRefusal::Memory,
    ] {
        writeln!(lines, "{refusal}")?;
    }
    add_judgements(&mut lines)?;
    for trap in &TRAPS {
        writeln!(lines, "{trap}")?;
    }
    Ok(lines)
}

/// Adds what is said of a frame that is not met, of a rule that is broken, and of a plan that is
/// refused by it.
fn add_judgements(lines: &mut String) -> Result<(), AllocError> {
    let broken = Break {
        rule: Rule::Collision,
        pieces: Some((0, 1)),
        point: None,
    };
    let refusal = Refusal {
        proc: 0,
        pc: 24,
        rule: Rule::Collision,
        pieces: Some((0, 1)),
        point: None,
    };
    writeln!(lines, "{}", Miss { point: None })?;
    writeln!(lines, "{broken}")?;
    writeln!(lines, "{refusal}")
}

// Plans of version 1 and their plans of version 2.

/// Whether a plan after edits is upgraded to that after other edits.
pub fn is_upgraded(rt: &impl Abort, alloc: Global, table: &Table, old: &str, new: &str) -> bool {
    let made = upgraded(rt, alloc, &plan_of(rt, alloc, table, old));
    made == plan_of(rt, alloc, table, new)
}

/// How many bytes the container of a plan after edits has, how many in version 2, and of these the
/// ones at 5 and at 17.
pub fn sizes_of(rt: &impl Abort, alloc: Global, table: &Table, edits: &str) -> String {
    let old = plan_of(rt, alloc, table, edits);
    let new = upgraded(rt, alloc, &old);
    let (before, after) = (old.len(), new.len());
    let (version, results) = (new.get(5), new.get(17));
    format!(in alloc; "{before} {after} {version:?} {results:?}").expect(rt, "memory")
}

/// Plans that are run in both versions: one asks nothing, one loops, one asks how far, and one calls.
const RUN: &str = "duo | duo, ring | ring, cup | cup, cup | lift";

/// Each list of at most two answers of -1 to 3.
const ANSWERS: &str = "\
, -1/, 0/, 1/, 2/, 3/, \
-1/-1/, -1/0/, -1/1/, -1/2/, -1/3/, \
0/-1/, 0/0/, 0/1/, 0/2/, 0/3/, \
1/-1/, 1/0/, 1/1/, 1/2/, 1/3/, \
2/-1/, 2/0/, 2/1/, 2/2/, 2/3/, \
3/-1/, 3/0/, 3/1/, 3/2/, 3/3/";

#[test]
fn upgraded_plans_run_as_before(rt: HostRuntime) {
    for run in RUN.split(", ") {
        for answers in ANSWERS.split(", ") {
            let before = sheet_of(&rt, rt.alloc(), How::Plainly, run, answers);
            let after = sheet_of(&rt, rt.alloc(), How::Upgraded, run, answers);
            assert!(rt; before == after, "{run} {answers}");
        }
    }
}

/// The sheet of a plan that is accepted and run with these answers.
fn sheet_of(rt: &impl Abort, alloc: Global, how: How, run: &'static str, answers: &str) -> Vec<u8> {
    let mut sheet = Vec::new(alloc);
    let table = table_of(rt, Kind::Run, how, run);
    let end = put(rt, alloc, &table, answers, &mut sheet);
    assert!(rt; end == "Apart" || end == "Waiting", "{run} {answers}");
    sheet
}
