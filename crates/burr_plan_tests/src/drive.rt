//! A drive by lines of commands: what is put for each, also where sinks fail.

use crate::calls::{assembly_of, container_of, rows_of};
use crate::puts::plan_of;
use crate::stepper::DRIVES;
use crate::tables::{How, Kind, lines_of, table_of};
use burr_blocking::RowTables;
use burr_io::Writing;
use burr_judge::{CommandHandler, OwnedStepper, StepFault};
use burr_step::{Drive, Halt, OwnedDrive, Stepper};
use burr_testing::Narrow;
use burr_verify::{Accepted, accept};
use std::alloc::Global;
use std::process::Abort;

#[test]
fn puts_what_each_line_for_a_drive_comes_to(rt: HostRuntime) {
    for dialogue in DRIVES.split("\n\n") {
        assert_dialogue(&rt, rt.alloc(), dialogue);
    }
}

/// Asserts a dialogue: an assembly and a plan, and lines of commands.
fn assert_dialogue(rt: &impl Abort, alloc: Global, dialogue: &'static str) {
    let (head, lines) = dialogue.split_once('\n').expect(rt, "lines");
    let table = table_of(rt, Kind::Check, How::Plainly, head);
    let bytes = plan_of(rt, alloc, &table, "none");
    let assembly = assembly_of(rt, alloc, table.assembly);
    let rows = rows_of(rt, alloc, &assembly);
    let container = container_of(rt, &bytes);
    let Ok(accepted) = accept(&container, &rows) else {
        panic!(rt; "refused");
    };
    assert_lines(rt, alloc, &accepted, lines, usize::MAX, 0);
    for (place, line) in lines.lines().enumerate() {
        assert_fronts(rt, alloc, &accepted, lines, place, line);
    }
}

/// Asserts that a drive and a stepper that are kept go on as those that they lend to themselves.
#[test]
fn goes_on_where_it_is_kept(rt: HostRuntime) {
    for dialogue in DRIVES.split("\n\n") {
        let (head, _lines) = dialogue.split_once('\n').expect(&rt, "lines");
        let table = table_of(&rt, Kind::Check, How::Plainly, head);
        let bytes = plan_of(&rt, rt.alloc(), &table, "none");
        let assembly = assembly_of(&rt, rt.alloc(), table.assembly);
        let rows = rows_of(&rt, rt.alloc(), &assembly);
        let container = container_of(&rt, &bytes);
        let Ok(accepted) = accept(&container, &rows) else {
            panic!(rt; "refused");
        };
        assert_kept_drive(&rt, rt.alloc(), &accepted);
        assert_kept_stepper(&rt, rt.alloc(), &accepted);
    }
}

/// Leads both drives to the end, and answers each question by its least number.
fn assert_kept_drive(rt: &impl Abort, alloc: Global, accepted: &Accepted<'_, '_, RowTables<'_>>) {
    let mut drive = Drive::new(accepted);
    let mut kept = OwnedDrive::new(alloc, accepted).expect(rt, "memory");
    for _ in 0..1000 {
        let next = drive.next();
        assert!(rt; kept.next() == next && kept.moves() == drive.moves());
        assert!(rt; kept.assembly().name() == drive.assembly().name());
        match next {
            Ok(_made) => {
                let made = kept.moves();
                assert!(rt; kept.go_to(made).is_ok());
            }
            Err(Halt::Asks(question)) => {
                assert!(rt; !kept.answer(0, question.low));
                assert!(rt; kept.answer(question.number, question.low));
                assert!(rt; drive.answer(question.number, question.low));
            }
            Err(Halt::Ends(_steps)) => return,
        }
    }
    panic!(rt; "no end");
}

/// Gives both steppers the same lines.
fn assert_kept_stepper(rt: &impl Abort, alloc: Global, accepted: &Accepted<'_, '_, RowTables<'_>>) {
    let mut stepper = Stepper::new(alloc, accepted).expect(rt, "memory");
    let mut kept = OwnedStepper::new(alloc, accepted).expect(rt, "memory");
    for line in [
        "forward", "over", "answer 1", "show", "back 1", "back 9", "no", "show", "quit",
    ] {
        let mut text = Vec::new(alloc);
        let taken = stepper.command(line.as_bytes(), &mut Writing::new(&mut text));
        let mut other = Vec::new(alloc);
        assert!(rt; kept.command(line.as_bytes(), &mut Writing::new(&mut other)) == taken);
        assert!(rt; other.as_slice() == text.as_slice(), "{line}");
    }
}

/// Asserts a dialogue whose sink fails at each place of the answer to a line.
fn assert_fronts(
    rt: &impl Abort,
    alloc: Global,
    accepted: &Accepted<'_, '_, RowTables<'_>>,
    lines: &str,
    place: usize,
    line: &str,
) {
    let (_words, wanted) = line.split_once('=').expect(rt, "what is put");
    for room in 0..wanted.len() {
        assert_lines(rt, alloc, accepted, lines, place, room);
    }
}

/// Asserts what lines of commands put, where at one place there is no more room than this: the sink
/// has a front of that answer, and the lines after it are answered as ever.
fn assert_lines(
    rt: &impl Abort,
    alloc: Global,
    accepted: &Accepted<'_, '_, RowTables<'_>>,
    lines: &str,
    place: usize,
    room: usize,
) {
    let mut drive = Drive::new(accepted);
    for (at, line) in lines.lines().enumerate() {
        let (words, wanted) = line.split_once('=').expect(rt, "what is put");
        let wanted = lines_of(rt, alloc, wanted);
        let is_right = if at == place {
            puts_front(alloc, &mut drive, words.as_bytes(), &wanted, room)
        } else {
            puts(alloc, &mut drive, words.as_bytes(), &wanted)
        };
        assert!(rt; is_right, "{line}");
    }
}

/// Whether a line puts this: nothing where no more lines are taken.
fn puts(alloc: Global, drive: &mut Drive<'_>, line: &[u8], wanted: &str) -> bool {
    let mut written = Vec::new(alloc);
    let told = drive.command(line, &mut Writing::new(&mut written));
    told == Ok(!wanted.is_empty()) && written.as_slice() == wanted.as_bytes()
}

/// Whether a sink with this room has a front of what a line puts, and then fails.
fn puts_front(
    alloc: Global,
    drive: &mut Drive<'_>,
    line: &[u8],
    wanted: &str,
    room: usize,
) -> bool {
    let mut writer = Narrow::new(alloc, room, None);
    let told = drive.command(line, &mut Writing::new(&mut writer));
    let front = wanted.as_bytes().get(..room);
    told == Err(StepFault::Write) && Some(writer.taken.as_slice()) == front
}
