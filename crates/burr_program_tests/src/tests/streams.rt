//! Streams that fail at any call, or give too many bytes.

use super::examples::{DUO, EXAMPLES};
use super::transcript::assert_transcript;
use super::*;
use burr_program::end_without_words;

/// Whether standard input is read whole, and a call of it that fails is told: one for each byte, and one
/// that tells the end.
fn is_read<T: Abort + Files + AllocGlobal>(rt: &T, line: &str, input: &str) -> bool {
    let words = words_of(rt, line);
    let left = input.as_bytes();
    for calls in 0..=input.len() {
        let end = end_over(rt, &words, Drips { left, calls });
        if !end.is(3, "", "cannot read -\n") {
            return false;
        }
    }
    let calls = left.len() + 1;
    end_over(rt, &words, Drips { left, calls }).is_like(&end_of(rt, line, input))
}

/// The status that a command line ends with if it reads nothing of standard input.
fn status_unread<T: Abort + Files + AllocGlobal>(rt: &T, line: &str) -> Option<u8> {
    let mut input = Drips::of("2\n");
    let end = end_with(rt, line, &mut input);
    (input.calls == usize::MAX).then_some(end.status)
}

/// The command lines that read answers: all of them, also if the plan or the assembly is refused.
const READING: &str = "\
burr run cup cup.bpln
burr try cup cup.bpln
burr trace cup cup.plan
burr run cup duo.bpln
burr try cup duo.bpln
burr trace cup duo.plan
burr run cup.plan cup.bpln
burr try cup.plan cup.bpln
burr trace cup.plan cup.plan
";

/// Command lines that read no standard input.
const NOT_READING: &str = "\
burr cells cup
burr asm duo.plan made
burr list duo.bpln
burr upgrade duo.bpln made
burr plan duo cup made
burr why cup cup.plan
burr frames cup cup.plan made
burr explain V15
burr check cup cup.bpln
burr step cup duo.bpln
burr drive cup duo.bpln
burr judge --help
burr --help
burr solve
";

#[test]
fn tells_a_source_that_fails(rt: HostRuntime) {
    assert_transcript(&rt, EXAMPLES);
    assert_case(&rt, "burr", is_read(&rt, "burr", DUO));
    for line in READING.lines() {
        assert_case(&rt, line, is_read(&rt, line, "2\n"));
    }
    for line in NOT_READING.lines() {
        let status = status_unread(&rt, line);
        assert_case(&rt, line, status.is_some_and(|status| status < 3));
    }
}

/// The commands that read standard input after their files, with `*` in place of one of these.
const READING_FILES: &str = "\
burr run * cup.bpln
burr run cup *
burr try * cup.bpln
burr try cup *
burr trace * cup.plan
burr trace cup *
burr step * cup.bpln
burr step cup *
burr drive * cup.bpln
burr drive cup *
";

/// An assembly or a plan that is refused before a command is read.
const REFUSED: &str = "\
burr step cup.plan cup.bpln
burr step cup cup.plan
burr step cup duo.bpln
burr drive cup.plan cup.bpln
burr drive cup cup
burr drive cup duo.bpln
burr drive cup duo.plan
";

#[test]
fn reads_no_input_after_a_refusal(rt: HostRuntime) {
    assert_transcript(&rt, EXAMPLES);
    for line in replaced(&rt, READING_FILES, "*", "none").lines() {
        assert_case(&rt, line, status_unread(&rt, line) == Some(3));
    }
    for line in REFUSED.lines() {
        assert_case(&rt, line, status_unread(&rt, line) == Some(1));
    }
}

/// Whether a call with room for only `room` bytes of what it prints puts these, and tells that it
/// can't write the others; where there is room for all, it has to end as it should.
fn is_front(end: &End, right: &End, room: usize) -> bool {
    match right.output.text().get(..room) {
        Some(front) if room < right.output.count => end.is(3, front, "cannot write -\n"),
        _ => end.is_like(right),
    }
}

/// Whether a front of what is printed is taken with each room that is too small, and all of it with the
/// room that it needs, by a sink that fails or by one that takes nothing more.
fn is_put<T: Abort + Files + AllocGlobal>(rt: &T, line: &str, input: &str, fails: bool) -> bool {
    let words = words_of(rt, line);
    let right = end_of(rt, line, input);
    for room in 0..=right.output.count {
        let mut end = End::new();
        end.output.room = room;
        end.output.fails = fails;
        end.call(rt, &words, Drips::of(input));
        if !is_front(&end, &right, room) {
            return false;
        }
    }
    true
}

/// Asserts that of a command line, its input after a `<`, in which `;` stands for the end of a line.
fn assert_put<T: Abort + Files + AllocGlobal>(rt: &T, case: &str) {
    let (line, input) = case.split_once('<').unwrap_or((case, ""));
    let input = replaced(rt, input, ";", "\n");
    assert_case(rt, case, is_put(rt, line, &input, true));
    assert_case(rt, case, is_put(rt, line, &input, false));
}

/// Command lines with their input. The first two print nothing, and never meet the fault.
const PRINTING: &str = "\
burr asm duo.plan made
burr upgrade duo.bpln made
burr --version
burr cells cup
burr cells duo.plan
burr asm duo made
burr list duo.bpln
burr list --places duo.bpln
burr list duo
burr upgrade duo made
burr why cup cup.plan
burr why cup duo.plan
burr trace duo duo.plan
burr frames duo cup.plan made
burr plan duo cup made
burr explain V15
burr check cup cup.bpln
burr check cup duo.bpln
burr judge<duo\tduo.plan;duo\tnone;;cup\tduo.bpln;
burr run cup cup.bpln<2;
burr run cup cup.bpln
burr run cup duo.bpln
burr try cup cup.bpln<2;
burr step cup cup.bpln<forward;answer 1;show;
burr drive cup cup.bpln<next;answer 1 1;next;show;
burr drive cup cup.plan<next;next;
burr step cup duo.bpln<forward;
";

#[test]
fn tells_a_sink_that_fails(rt: HostRuntime) {
    assert_transcript(&rt, EXAMPLES);
    assert_case(&rt, "burr", is_put(&rt, "burr", DUO, true));
    assert_case(&rt, "burr", is_put(&rt, "burr", DUO, false));
    for case in PRINTING.lines() {
        assert_put(&rt, case);
    }
}

/// Whether a line that can't be told, but a front of it, changes no status, and nothing is printed.
fn keeps_its_status<T: Abort + Files + AllocGlobal>(rt: &T, line: &str) -> bool {
    let words = words_of(rt, line);
    let right = end_over(
        rt,
        &words,
        Drips {
            left: b"",
            calls: 0,
        },
    );
    let told = right.complaint.text();
    for room in 0..told.len() {
        let mut end = End::new();
        end.complaint.room = room;
        end.call(
            rt,
            &words,
            Drips {
                left: b"",
                calls: 0,
            },
        );
        if !end.is(right.status, "", told.get(..room).unwrap_or(told)) {
            return false;
        }
    }
    !told.is_empty()
}

#[test]
fn keeps_the_status_where_standard_error_fails(rt: HostRuntime) {
    assert_case(&rt, "burr", keeps_its_status(&rt, "burr"));
    let line = "burr explain A9";
    assert_case(&rt, line, keeps_its_status(&rt, line));
}

/// How a command line ends over a source of `length` equal bytes.
fn end_of_length<T: Abort + Files + AllocGlobal>(rt: &T, line: &str, length: usize) -> End {
    end_with(rt, line, io::repeat(b'x').take(length as u64))
}

/// The command lines that read standard input.
const LONG: &str = "\
burr
burr run cup cup.bpln
burr try cup cup.bpln
";

/// Standard input of as many bytes as may be, and of one more.
#[test]
fn tells_an_input_that_is_too_long(rt: HostRuntime) {
    assert_transcript(&rt, EXAMPLES);
    let full = end_of_length(&rt, "burr", LIMIT);
    assert!(rt; full.is(1, "refused input\n", ""));
    for line in LONG.lines() {
        let end = end_of_length(&rt, line, LIMIT + 1);
        assert_case(&rt, line, end.is(3, "", "cannot read -\n"));
    }
}

// What the program does with its words: replies go out, complaints go to standard error.

/// The version, a fault of the words, and words and lines that are explained or not.
const REPLIES: &str = "\
$burr --version
>burr 1.0.0 (rattle-kit-13f logic dac8208d650f15bf)
?0
$burr list
!error: the following required arguments were not provided:
!  <PLAN>
!
!Usage: burr list <PLAN>
!
!For more information, try '--help'.
?2
$burr explain A9
!error: nothing is explained under A9
?2
$burr explain refused V29 proc 0 pc 0
!error: nothing is explained under refused V29 proc 0 pc 0
?2
";

#[test]
fn replies_to_words(rt: HostRuntime) {
    assert_transcript(&rt, REPLIES);
}

/// Pairs of command lines that are answered alike.
const ALIKE: &str = "\
burr help=burr --help
burr help asm=burr asm --help
burr help judge=burr judge -h
burr explain a4=burr explain REFUSED A4 line 7
burr explain 3=burr explain trap 3 NotFree proc 0 pc 5 after 1 steps
";

/// Whether a pair of command lines prints something, and both the same.
fn answers_alike<T: Abort + Files + AllocGlobal>(rt: &T, pair: &str) -> bool {
    let (first, second) = pair.split_once('=').unwrap_or((pair, ""));
    let end = end_of(rt, first, "");
    let printed = end.output.text();
    !printed.is_empty() && end.is(0, printed, "") && end.is_like(&end_of(rt, second, ""))
}

#[test]
fn replies_to_other_words_alike(rt: HostRuntime) {
    for pair in ALIKE.lines() {
        assert_case(&rt, pair, answers_alike(&rt, pair));
    }
}

/// How the program ends where words can't be had.
fn end_without(kind: io::ErrorKind) -> End {
    let mut end = End::new();
    let mut complaints: LineWriter<_, 64> = LineWriter::new(Writing::new(&mut end.complaint));
    end.status = end_without_words(kind, &mut complaints);
    end
}

#[test]
fn tells_that_words_cannot_be_had(rt: HostRuntime) {
    let line = "error: a word of the command line is not UTF-8\n";
    let want = end_without(io::ErrorKind::OutOfMemory);
    assert_case(&rt, "no memory", want.is(4, "", "no memory\n"));
    let fault = end_without(io::ErrorKind::InvalidData);
    assert_case(&rt, line, fault.is(2, "", line));
}
