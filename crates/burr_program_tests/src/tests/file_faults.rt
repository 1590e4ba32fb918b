//! Calls on files that fail, one at a time.
use super::faulty_files::{Calls, Failing, Faulty};
use super::transcript::{assert_examples, assert_transcript};
use super::*;

/// More calls on files than a small container takes.
const MANY: usize = 1000;

/// A command that makes `made` of a file.
#[derive(Clone, Copy)]
struct Making<'a> {
    words: &'a [String],
    /// The line where the file can't be read.
    unread: &'a str,
    /// The file that stands as `made` before, or none.
    old: &'a str,
}

/// How often a file could not be read or written.
#[derive(Drop)]
struct Faults {
    unread: u64,
    unwritten: u64,
}

/// How a command ends where the call on files after the first `before` fails; None where it makes
/// no such call.
fn end_after<T: Files + AllocGlobal>(rt: &T, making: Making<'_>, before: usize) -> Option<End> {
    let _ = fs::remove_file(rt, "made");
    let _ = fs::copy(rt, making.old, "made");
    let calls = Calls::new(rt.alloc(), Failing::After(before));
    let faulty = Faulty { rt, calls: &calls };
    let end = end_over(&faulty, making.words, Drips::of(""));
    calls.have_failed().then_some(end)
}

/// The file that has to stand as `made` after a command; none where it should not have ended so. Its
/// fault is counted.
fn standing_after<'a>(making: Making<'a>, end: &End, faults: &mut Faults) -> Option<&'a str> {
    if end.is(0, "", "") {
        return Some("right");
    }
    if end.is(3, "", making.unread) {
        faults.unread = faults.unread.saturating_add(1);
        return Some(making.old);
    }
    if end.is(3, "", "cannot write made\n") {
        faults.unwritten = faults.unwritten.saturating_add(1);
        return Some(making.old);
    }
    None
}

/// Lets each call on files of a command fail, and asserts that the old file stands where the new one is
/// not whole, and none beside it.
fn faults_of<T: Abort + Files + AllocGlobal>(rt: &T, making: Making<'_>) -> Faults {
    let mut faults = Faults {
        unread: 0,
        unwritten: 0,
    };
    for before in 0..MANY {
        let Some(end) = end_after(rt, making, before) else {
            break;
        };
        let standing = standing_after(making, &end, &mut faults).expect(rt, "a fault is told");
        assert_case(rt, standing, are_alike(rt, "made", standing));
        assert_case(rt, "made.new0", are_alike(rt, "made.new0", "none"));
    }
    faults
}

/// How many bytes a file has.
fn length_of<T: Files>(rt: &T, name: &str) -> u64 {
    match fs::metadata(rt, name) {
        Ok(file) => file.len(),
        Err(_) => u64::MAX,
    }
}

/// Asserts that of a command, a file and what stands before: at least one call for each byte that is read
/// and for each that is written can fail.
fn assert_faults<T: Abort + Files + AllocGlobal>(rt: &T, command: &str, from: &str, old: &str) {
    let line = replaced(rt, command, "*", from);
    let unread = replaced(rt, "cannot read *\n", "*", from);
    let words = words_of(rt, &line);
    let making = Making {
        words: &words,
        unread: &unread,
        old,
    };
    let faults = faults_of(rt, making);
    assert_case(rt, &unread, faults.unread > length_of(rt, from));
    assert_case(rt, &line, faults.unwritten > length_of(rt, "right"));
}

/// How a list ends where the call on files after the first `before` fails; None where it makes no such
/// call.
fn end_of_faulty<T: Files + AllocGlobal>(rt: &T, words: &[String], before: usize) -> Option<End> {
    let calls = Calls::new(rt.alloc(), Failing::After(before));
    let faulty = Faulty { rt, calls: &calls };
    let end = end_over(&faulty, words, Drips::of("duo\tduo.plan\nduo\tduo.bpln\n"));
    calls.have_failed().then_some(end)
}

/// A call that fails is that of a file of the first line, or of the second one.
const FIRST: &str = "1 3 cannot read\n2 0 accepted cost 3 budget 3 looks 1\n";

const SECOND: &str = "1 0 accepted cost 3 budget 3 looks 1\n2 3 cannot read\n";

/// Whichever call on files fails, its line is told so, and the other one is judged.
#[test]
fn judges_the_other_line_where_a_call_fails(rt: HostRuntime) {
    assert_examples(&rt, "");
    let words = words_of(&rt, "burr judge");
    let mut firsts = 0u64;
    let mut seconds = 0u64;
    for before in 0..MANY {
        let Some(end) = end_of_faulty(&rt, &words, before) else {
            break;
        };
        if end.is(3, FIRST, "") {
            firsts = firsts.saturating_add(1);
            assert_case(&rt, "first", seconds == 0);
        } else {
            seconds = seconds.saturating_add(1);
            assert_case(&rt, "second", end.is(3, SECOND, ""));
        }
    }
    assert_case(&rt, "duo.plan", firsts > length_of(&rt, "duo.plan"));
    assert_case(&rt, "duo.bpln", seconds > length_of(&rt, "duo.bpln"));
}

/// The old container stands until the new one is whole, whichever call on files fails.
#[test]
fn leaves_the_old_container_where_a_call_fails(rt: HostRuntime) {
    assert_examples(&rt, "<as before\n=old\n$burr asm duo.plan right\n?0\n");
    assert_faults(&rt, "burr asm * made", "duo.plan", "none");
    assert_faults(&rt, "burr asm * made", "duo.plan", "old");
    assert_transcript(&rt, "$burr upgrade duo.bpln right\n?0\n");
    assert_faults(&rt, "burr upgrade * made", "duo.bpln", "none");
    assert_faults(&rt, "burr upgrade * made", "duo.bpln", "old");
}
