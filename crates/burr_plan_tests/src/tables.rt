//! Tables of cases: a line with an assembly and, after ` | `, a plan, each by its name or as a text,
//! and then a case a line: what is given, and after ` | ` what comes of it. A line with `#` is a
//! heading, `/` after the bar stands for a line end, and a blank line stands between tables.

use crate::arrivals::said_of_state;
use crate::bench::said_of_both;
use crate::calls::assembly_of;
use crate::plans::{assembly_named, plan_named};
use crate::puts::{puts, puts_fronts, puts_poorly};
use crate::sources::reads_portions;
use crate::verdicts::{is_upgraded, said_of_judge, sizes_of};
use crate::want::wants_memory;
use burr_runs::read_answers;
use burr_sheet::expand;
use std::alloc::Global;
use std::process::Abort;

/// What is done with what the cases of a table give.
#[derive(Clone, Copy)]
pub enum Kind {
    /// A text: its answers are read.
    Answers,
    /// A text: the motions whose lines it is are read.
    Motions,
    /// Edits of what stands after an assembly's text: bare code is run.
    Bare,
    /// Edits of a plan: it is asked whether the plan is for the assembly.
    Fit,
    /// Edits of a plan: it is judged.
    Verdict,
    /// Edits of a plan: it is judged, and its looks are counted.
    Looks,
    /// Edits of a plan: the machine and the bench that tests each move run it.
    Both,
    /// Edits of a plan: it is made a plan of version 2, which other edits give, too.
    Upgrade,
    /// Edits of a plan: it is asked how long it is, and how long in version 2.
    Sizes,
    /// Edits of a plan, and of the plan to whose frames the states of that come.
    State,
    /// Edits of a plan: it is checked.
    Check,
    /// Answers: the plan is run with them, where it is accepted.
    Run,
}

/// What the cases of a table are about.
#[derive(Clone, Copy)]
pub struct Table {
    pub kind: Kind,
    pub how: How,
    /// The assembly's text.
    pub assembly: &'static str,
    /// The plan's digits, or what stands after the assembly's text; with a `?` where a case fills
    /// it.
    pub plan: &'static str,
}

/// How the cases of tables are tried.
#[derive(Clone, Copy)]
pub enum How {
    /// With all that they need.
    Plainly,
    /// With sinks that take a front of what is put.
    InFronts,
    /// With sources that give a byte a call, and fail.
    InPortions,
    /// While memory is wanting here and there.
    Wanting,
    /// With ample memory as without, farther down the stack.
    FartherDown,
    /// While no memory can be had, once all is made that the cases work on.
    Poorly,
    /// With plans of version 2 that are made of the cases'.
    Upgraded,
    /// On the bench that tests each move, whether the plan is accepted or not.
    Tried,
}

/// Asserts what comes of each case of these tables.
pub fn assert_tables(rt: &impl Abort, alloc: Global, how: How, kind: Kind, tables: &'static str) {
    for text in tables.split("\n\n") {
        assert_table(rt, alloc, how, kind, text);
    }
}

/// Asserts what comes of each case of a table.
fn assert_table(rt: &impl Abort, alloc: Global, how: How, kind: Kind, text: &'static str) {
    let (head, cases) = text.split_once('\n').expect(rt, "cases");
    assert_cases(rt, alloc, &table_of(rt, kind, how, head), cases);
}

/// The table with this first line.
pub fn table_of(rt: &impl Abort, kind: Kind, how: How, head: &'static str) -> Table {
    let (assembly, plan) = head.split_once(" | ").expect(rt, "a plan");
    Table {
        kind,
        how,
        assembly: assembly_named(assembly),
        plan: plan_named(plan),
    }
}

/// Asserts what comes of these cases of a table.
fn assert_cases(rt: &impl Abort, alloc: Global, table: &Table, cases: &str) {
    for line in cases.lines() {
        if !line.starts_with('#') {
            assert_case(rt, alloc, table, line);
        }
    }
}

/// Asserts what comes of a case.
fn assert_case(rt: &impl Abort, alloc: Global, table: &Table, line: &str) {
    let (given, wanted) = line.split_once(" | ").expect(rt, "what comes of it");
    let wanted = lines_of(rt, alloc, wanted);
    let is_right = match table.how {
        How::InFronts => puts_fronts(rt, alloc, table, given, &wanted),
        How::InPortions => reads_portions(rt, alloc, table, given, &wanted),
        How::Wanting => wants_memory(rt, alloc, table, given, &wanted),
        How::FartherDown | How::Poorly => puts_poorly(rt, alloc, table, given, &wanted),
        _ => comes_to(rt, alloc, table, given, &wanted),
    };
    assert!(rt; is_right, "{line}");
}

/// Whether this is put or said of a case.
fn comes_to(rt: &impl Abort, alloc: Global, table: &Table, given: &str, wanted: &str) -> bool {
    match table.kind {
        Kind::Bare | Kind::Check | Kind::Run => puts(rt, alloc, table, given, wanted),
        Kind::Upgrade => is_upgraded(rt, alloc, table, given, wanted),
        _ => said_of(rt, alloc, table, given).as_str() == wanted,
    }
}

/// What is said of a case.
fn said_of(rt: &impl Abort, alloc: Global, table: &Table, given: &str) -> String {
    match table.kind {
        Kind::Answers => answers_of(rt, alloc, given),
        Kind::Motions => motions_of(rt, alloc, table.assembly, given),
        Kind::Both => said_of_both(rt, alloc, table, given),
        Kind::Sizes => sizes_of(rt, alloc, table, given),
        Kind::State => said_of_state(rt, alloc, table, given),
        _ => said_of_judge(rt, alloc, table, given),
    }
}

/// What is read of a text's answers.
fn answers_of(rt: &impl Abort, alloc: Global, text: &str) -> String {
    let text = lines_of(rt, alloc, text);
    let answers = read_answers(alloc, text.as_bytes());
    format!(in alloc; "{answers:?}").expect(rt, "memory")
}

/// The motions whose lines a text is, or how many where they are more than a few.
fn motions_of(rt: &impl Abort, alloc: Global, assembly: &str, text: &str) -> String {
    let text = lines_of(rt, alloc, text);
    let found = expand(alloc, &assembly_of(rt, alloc, assembly), text.as_bytes());
    match found.expect(rt, "memory") {
        Some(motions) if motions.len() > 4 => format!(in alloc; "{}", motions.len()),
        motions => format!(in alloc; "{motions:?}"),
    }
    .expect(rt, "memory")
}

// Texts as other texts write them.

/// Words that stand for a text many times.
const MANY: [(&str, usize, &str); 7] = [
    ("doubled39", 39, "02 00 02 00 04 03 00"),
    ("doubled40", 40, "02 00 02 00 04 03 00"),
    ("doubled41", 41, "02 00 02 00 04 03 00"),
    ("far", 256, "11 00"),
    ("units", 257, "11 01"),
    ("moves\n", 256, UNIT),
    ("trays", 2048, "1300"),
];

/// What the bench tells of a unit.
const UNIT: &str = "call | Ok(Went(Some(Motion { group: 1, tray: 0, dir: MinusX, out: false })))\n";

/// A text in which each word that stands for another text many times has given place to that.
pub fn expanded(rt: &impl Abort, alloc: Global, text: &str) -> String {
    let mut changed = text.to_string(alloc).expect(rt, "memory");
    for (word, count, unit) in &MANY {
        let many = unit.repeat(alloc, *count).expect(rt, "memory");
        changed = changed.replace(alloc, *word, &many).expect(rt, "memory");
    }
    changed
}

/// A text in which `/` stands for each line end.
pub fn lines_of(rt: &impl Abort, alloc: Global, text: &str) -> String {
    text.replace(alloc, "/", "\n").expect(rt, "memory")
}

/// The bytes that hexadecimal digits name.
pub fn bytes_of(rt: &impl Abort, alloc: Global, digits: &str) -> Vec<u8> {
    burr_testing::bytes_of(alloc, digits).expect(rt, "digits")
}

/// A text on one line after edits, which a comma and a blank join: `OLD > NEW` puts other words in
/// the place of some where they first stand, any other words fill the first `?`, and `none` is no
/// edit. After that it is expanded.
pub fn edited(rt: &impl Abort, alloc: Global, text: &str, edits: &str) -> String {
    let mut changed = text.replace(alloc, "\n", " ").expect(rt, "memory");
    for edit in edits.split(", ") {
        edit_once(rt, alloc, &mut changed, edit);
    }
    expanded(rt, alloc, &changed)
}

/// Edits a text once.
fn edit_once(rt: &impl Abort, alloc: Global, text: &mut String, edit: &str) {
    if edit == "none" {
        return;
    }
    let (old, new) = edit.split_once(" > ").unwrap_or(("?", edit));
    assert!(rt; text.contains(old));
    *text = text.replacen(alloc, old, new, 1).expect(rt, "memory");
}
