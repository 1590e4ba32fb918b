//! Lists of plans, judged pair by pair.
use super::driving::{GROUP, PUZZLES};
use super::files::put_long;
use super::results::LIFT;
use super::transcript::{assert_examples, assert_transcript};
use super::*;
use std::cell::Cell;

/// How a list ends.
fn end_of_list<T: Abort + Files + AllocGlobal>(rt: &T, list: &str) -> End {
    end_of(rt, "burr judge", list)
}

/// No list; texts and containers of both versions, and an assembly that is named again.
const ACCEPTED: &str = "\
$burr judge
?0
$burr upgrade ring.bpln judged.ring
?0
<duo\tduo.plan
<duo\tduo.bpln
<ring\tring.plan
<ring\tjudged.ring
<cup\tcup.bpln
<cup\tlift.plan
<duo\t./duo.plan
$burr judge
>1 0 accepted cost 3 budget 3 looks 1
>2 0 accepted cost 3 budget 3 looks 1
>3 0 accepted cost 11 budget 11 looks 4
>4 0 accepted cost 11 budget 11 looks 4
>5 0 accepted cost 14 budget 14 looks 6
>6 0 accepted cost 18 budget 18 looks 6
>7 0 accepted cost 3 budget 3 looks 1
?0
";

/// Faulty assemblies, plan texts and containers, a plan for another assembly, and plans that fail a rule.
/// Where an assembly and its plan are faulty, the assembly is refused.
const REFUSED: &str = "\
@duo
/piece B cube +x+y+z 1/piece B cube +x+y+z 0
=judged.crowd
@ring.plan
/proc main 0/proc main zero
=judged.wrong
@ring.plan
/ring 2 11/ring 2 10
=judged.short
$burr asm judged.short judged.short.bpln
?0
@duo.plan
/aside -x/aside +x
=judged.through
=judged.empty
<BPLN
=judged.cut
<duo\tjudged.through
<ring\tduo.plan
<ring\tduo.bpln
<ring\tring.bpln
<ring\tjudged.short
<ring\tjudged.short.bpln
<ring\tjudged.wrong
<ring\tjudged.empty
<ring\tjudged.cut
<judged.crowd\tduo.plan
<judged.crowd\tjudged.wrong
<judged.crowd\tjudged.cut
<duo.plan\tjudged.wrong
<judged.empty\tjudged.empty
<duo.bpln\tduo
<duo\tduo
$burr judge
>1 1 refused V16 proc 0 pc 5 pieces A B
>2 1 refused V1 proc 0 pc 0
>3 1 refused V1 proc 0 pc 0
>4 0 accepted cost 11 budget 11 looks 4
>5 1 refused V28 proc 0 pc 0
>6 1 refused V28 proc 0 pc 0
>7 1 refused P1 line 2
>8 1 refused P1 line 1
>9 1 refused C1 at 5
>10 1 refused A8 line 7 A B
>11 1 refused A8 line 7 A B
>12 1 refused A8 line 7 A B
>13 1 refused A1 line 1
>14 1 refused A1 line 1
>15 1 refused A1 line 1
>16 1 refused P1 line 1
?1
";

/// Lines without a tab or with more than one, empty names, and empty lines.
const NO_PAIRS: &str = "\
<
<duo
<duo duo.plan
<duo\tduo.plan\t
<duo\t\tduo.plan
<\tduo\tduo.plan
<duo\tduo.plan\tduo.plan
<\tduo.plan
<duo\t
<\t
<duo\tduo.plan
<
$burr judge
>1 1 refused pair
>2 1 refused pair
>3 1 refused pair
>4 1 refused pair
>5 1 refused pair
>6 1 refused pair
>7 1 refused pair
>8 1 refused pair
>9 1 refused pair
>10 1 refused pair
>11 0 accepted cost 3 budget 3 looks 1
>12 1 refused pair
?1
";

/// Files that are not there, a folder, what a file has below it, and names with more bytes than those of
/// the files; a file that can't be read is told also where the other one is faulty.
const UNREAD: &str = "\
<none\tduo.plan
<duo\tnone
<none\tnone
<.\tduo.plan
<duo\t.
<duo\tduo/none
<judged.crowd\tnone
<none\tjudged.wrong
< duo\tduo.plan
<duo\t duo.plan
<
<cup\tduo.plan
<duo\tduo.plan
$burr judge
>1 3 cannot read
>2 3 cannot read
>3 3 cannot read
>4 3 cannot read
>5 3 cannot read
>6 3 cannot read
>7 3 cannot read
>8 3 cannot read
>9 3 cannot read
>10 3 cannot read
>11 1 refused pair
>12 1 refused V1 proc 0 pc 0
>13 0 accepted cost 3 budget 3 looks 1
?3
";

/// Names with blanks, or with letters of more than one byte, and a name that is an option elsewhere.
const NAMED: &str = "\
@duo
=judged two cubes
@duo.plan
=judged plan of them
@duo
=judged w\u{fc}rfel
@duo.plan
=--judged
<judged two cubes\tjudged plan of them
<./judged two cubes\t./judged plan of them
<judged w\u{fc}rfel\t--judged
<judged two\tjudged plan of them
$burr judge
>1 0 accepted cost 3 budget 3 looks 1
>2 0 accepted cost 3 budget 3 looks 1
>3 0 accepted cost 3 budget 3 looks 1
>4 3 cannot read
?3
";

/// Assemblies that are named again, next to each other and not: accepted, refused, and one that
/// can't be read; the same plan for another assembly in between.
const AGAIN: &str = "\
<duo\tduo.plan
<duo\tduo.bpln
<duo\tjudged.through
<duo\tring.plan
<ring\tduo.plan
<ring\tring.plan
<duo\tring.plan
<duo\tnone
<duo\tduo.plan
<judged.crowd\tduo.plan
<judged.crowd\tjudged.wrong
<judged.crowd\tnone
<none\tduo.plan
<none\tduo.plan
<duo
<duo\tduo.plan
$burr judge
>1 0 accepted cost 3 budget 3 looks 1
>2 0 accepted cost 3 budget 3 looks 1
>3 1 refused V16 proc 0 pc 5 pieces A B
>4 1 refused V1 proc 0 pc 0
>5 1 refused V1 proc 0 pc 0
>6 0 accepted cost 11 budget 11 looks 4
>7 1 refused V1 proc 0 pc 0
>8 3 cannot read
>9 0 accepted cost 3 budget 3 looks 1
>10 1 refused A8 line 7 A B
>11 1 refused A8 line 7 A B
>12 3 cannot read
>13 3 cannot read
>14 3 cannot read
>15 1 refused pair
>16 0 accepted cost 3 budget 3 looks 1
?3
";

#[test]
fn judges_pair_by_pair(rt: HostRuntime) {
    assert_examples(&rt, LIFT);
    assert_transcript(&rt, ACCEPTED);
    assert_transcript(&rt, REFUSED);
    assert_transcript(&rt, AGAIN);
    assert_transcript(&rt, NO_PAIRS);
    assert_transcript(&rt, UNREAD);
    assert_transcript(&rt, NAMED);
}

/// A last line may lack its end.
#[test]
fn judges_a_last_line_without_its_end(rt: HostRuntime) {
    assert_examples(&rt, "");
    let both = "1 0 accepted cost 3 budget 3 looks 1\n2 1 refused V1 proc 0 pc 0\n";
    let end = end_of_list(&rt, "duo\tduo.plan\nduo\tcup.plan");
    assert_case(&rt, "pair", end.is(1, both, ""));
    let end = end_of_list(&rt, "duo");
    assert_case(&rt, "no pair", end.is(1, "1 1 refused pair\n", ""));
}

/// Bytes that are no text, alone, within a name, and at its end, where more bytes would make a letter of
/// them; a name that has a byte 0; and one that ends by a carriage return.
const BYTES: &[u8] =
    b"\xff\tduo.plan\nduo\tduo\xfe.plan\nduo\tduo.plan\xe2\x82\nd\xc3\xbco\tduo.plan\n\
duo\0\tduo.plan\nduo\tduo.plan\r\nduo\tduo.plan\n";

const OF_BYTES: &str = "\
1 1 refused pair
2 1 refused pair
3 1 refused pair
4 3 cannot read
5 3 cannot read
6 3 cannot read
7 0 accepted cost 3 budget 3 looks 1
";

#[test]
fn judges_names_of_any_bytes(rt: HostRuntime) {
    assert_examples(&rt, "");
    let bytes = Drips {
        left: BYTES,
        calls: usize::MAX,
    };
    let end = end_with(&rt, "burr judge", bytes);
    assert_case(&rt, end.output.text(), end.is(3, OF_BYTES, ""));
}

/// How a list of names ends, each with a byte 0 after it.
fn end_of_names<T: Abort + Files + AllocGlobal>(rt: &T, names: &str) -> End {
    end_of(rt, "burr judge --null", names)
}

/// Names with tabs, line feeds and blanks, and one that is a line of a list; empty names; names of
/// files that are not there; and the same pair after all of them.
const NAMES: &str = "duo\0duo.plan\0judged\tof\ntwo\0judged\nplan \0cup\0cup.bpln\0ring\0duo.plan\0\
duo\tduo.plan\0duo.plan\0duo\0none\n\0 duo\0duo.plan\0\0duo.plan\0duo\0\0\0\0duo\0duo.plan\0";

const OF_NAMES: &str = "\
1 0 accepted cost 3 budget 3 looks 1
2 0 accepted cost 3 budget 3 looks 1
3 0 accepted cost 14 budget 14 looks 6
4 1 refused V1 proc 0 pc 0
5 3 cannot read
6 3 cannot read
7 3 cannot read
8 1 refused pair
9 1 refused pair
10 1 refused pair
11 0 accepted cost 3 budget 3 looks 1
";

/// Names, and how they are answered, with the status: the last name may lack its end, and a name
/// that has no other one is answered too.
const ENDS: &[(&str, &str, u8)] = &[
    ("", "", 0),
    (
        "duo\0duo.plan\0",
        "1 0 accepted cost 3 budget 3 looks 1\n",
        0,
    ),
    ("duo\0duo.plan", "1 0 accepted cost 3 budget 3 looks 1\n", 0),
    ("duo\0", "1 1 refused pair\n", 1),
    ("duo\tduo.plan\n", "1 1 refused pair\n", 1),
    ("\0", "1 1 refused pair\n", 1),
    ("\0\0", "1 1 refused pair\n", 1),
    ("\0\0\0", "1 1 refused pair\n2 1 refused pair\n", 1),
    (
        "duo\0duo.plan\0duo.plan",
        "1 0 accepted cost 3 budget 3 looks 1\n2 1 refused pair\n",
        1,
    ),
    (
        "duo\0duo.plan\0duo.plan\0",
        "1 0 accepted cost 3 budget 3 looks 1\n2 1 refused pair\n",
        1,
    ),
    (
        "duo.plan\0duo\0duo\0duo.plan",
        "1 1 refused A1 line 1\n2 0 accepted cost 3 budget 3 looks 1\n",
        1,
    ),
];

/// Writes the assembly and the plan of two cubes under names that no line of a list can have.
fn write_odd_names<T: Abort + Files + AllocGlobal>(rt: &T) {
    assert_examples(rt, "");
    for (name, odd) in [("duo", "judged\tof\ntwo"), ("duo.plan", "judged\nplan ")] {
        let text = fs::read(rt, name).expect(rt, "an example");
        assert!(rt; fs::write(rt, odd, &text).is_ok());
    }
}

#[test]
fn judges_pairs_of_names(rt: HostRuntime) {
    write_odd_names(&rt);
    let end = end_of_names(&rt, NAMES);
    assert_case(&rt, end.output.text(), end.is(3, OF_NAMES, ""));
    for (names, told, status) in ENDS {
        let end = end_of_names(&rt, names);
        assert_case(&rt, end.output.text(), end.is(*status, told, ""));
    }
    let left: &[u8] = b"duo\0duo\xfe.plan\0\xff\0duo.plan\0duo\0duo.plan";
    let calls = usize::MAX;
    let end = end_with(&rt, "burr judge --null", Drips { left, calls });
    let told = "1 1 refused pair\n2 1 refused pair\n3 0 accepted cost 3 budget 3 looks 1\n";
    assert_case(&rt, end.output.text(), end.is(1, told, ""));
}

/// Two names of a pair have at most 8,190 bytes; the next pair is no part of one that is longer,
/// wherever its names end.
#[test]
fn judges_pairs_of_up_to_8191_bytes(rt: HostRuntime) {
    assert_examples(&rt, "");
    let next = "2 0 accepted cost 3 budget 3 looks 1\n";
    for (assembly, plan, told) in LENGTHS {
        let assembly = long_path(&rt, "duo", *assembly);
        let plan = long_path(&rt, "duo.plan", *plan);
        let pair = format!(in rt.alloc(); "{assembly}\0{plan}").expect(&rt, "memory");
        let names = format!(in rt.alloc(); "{pair}\0duo\0duo.plan\0").expect(&rt, "memory");
        let both = format!(in rt.alloc(); "{told}{next}").expect(&rt, "memory");
        let end = end_of_names(&rt, &names);
        assert_case(&rt, &both, end.output.text() == both.as_str());
        let last = end_of_names(&rt, &pair);
        assert_case(&rt, told, last.output.text() == *told);
    }
}

/// The first lines of a text.
fn first_lines(text: &str, count: usize) -> &str {
    let mut size = 0usize;
    for line in text.lines().take(count) {
        size = size.saturating_add(line.len()).saturating_add(1);
    }
    text.get(..size).unwrap_or(text)
}

/// Where standard input fails, the pairs before are answered.
#[test]
fn answers_the_pairs_before_its_source_fails(rt: HostRuntime) {
    write_odd_names(&rt);
    for calls in 0..=NAMES.len() {
        let left = NAMES.as_bytes();
        let end = end_with(&rt, "burr judge --null", Drips { left, calls });
        let given = NAMES.get(..calls).unwrap_or(NAMES);
        let pairs = given.bytes().filter(|byte| *byte == 0).count() / 2;
        let told = first_lines(OF_NAMES, pairs);
        assert_case(&rt, given, end.is(3, told, "cannot read -\n"));
    }
}

/// Where standard output fails, it has a front of the answers to pairs.
#[test]
fn writes_a_front_of_the_answers_to_pairs(rt: HostRuntime) {
    write_odd_names(&rt);
    let words = words_of(&rt, "burr judge --null");
    for room in 0..OF_NAMES.len() {
        let mut end = End::new();
        end.output.room = room;
        end.call(&rt, &words, Drips::of(NAMES));
        let front = OF_NAMES.get(..room).unwrap_or(OF_NAMES);
        assert_case(&rt, front, end.is(3, front, "cannot write -\n"));
    }
}

/// A path to a file that has this many bytes: `.`, slashes, and the file's name.
fn long_path<T: Abort + AllocGlobal>(rt: &T, name: &str, length: usize) -> String {
    let mut path = String::from_str(rt.alloc(), ".").expect(rt, "memory");
    for _ in name.len()..length.saturating_sub(1) {
        assert!(rt; path.push('/').is_ok());
    }
    assert!(rt; path.push_str(name).is_ok());
    path
}

/// Lengths of the two names of a line, and how it is answered: lines of 8,190, 8,191 and 8,192 bytes, and
/// of many more. The system takes a name of at most 4,095 bytes.
const LENGTHS: &[(usize, usize, &str)] = &[
    (4095, 4094, "1 0 accepted cost 3 budget 3 looks 1\n"),
    (4095, 4095, "1 0 accepted cost 3 budget 3 looks 1\n"),
    (4094, 4096, "1 3 cannot read\n"),
    (8180, 10, "1 3 cannot read\n"),
    (4095, 4096, "1 1 refused pair\n"),
    (4096, 4096, "1 1 refused pair\n"),
    (8181, 10, "1 1 refused pair\n"),
    (5, 20000, "1 1 refused pair\n"),
    (20000, 20000, "1 1 refused pair\n"),
];

/// The next line is not part of a long one.
#[test]
fn judges_lines_of_up_to_8191_bytes(rt: HostRuntime) {
    assert_examples(&rt, "");
    let next = "2 0 accepted cost 3 budget 3 looks 1\n";
    for (assembly, plan, told) in LENGTHS {
        let assembly = long_path(&rt, "duo", *assembly);
        let plan = long_path(&rt, "duo.plan", *plan);
        let line = format!(in rt.alloc(); "{assembly}\t{plan}").expect(&rt, "memory");
        let list = format!(in rt.alloc(); "{line}\nduo\tduo.plan\n").expect(&rt, "memory");
        let both = format!(in rt.alloc(); "{told}{next}").expect(&rt, "memory");
        let end = end_of_list(&rt, &list);
        assert_case(&rt, &both, end.output.text() == both.as_str());
        let last = end_of_list(&rt, &line);
        assert_case(&rt, told, last.output.text() == *told);
    }
}

/// Files of as many bytes as may be, and of one more.
const LARGE: &str = "\
<duo\tjudged.full
<judged.full\tduo.plan
<duo\tjudged.long
<judged.long\tduo.plan
<duo\tduo.plan
$burr judge
>1 1 refused P1 line 1
>2 1 refused A1 line 1
>3 3 cannot read
>4 3 cannot read
>5 0 accepted cost 3 budget 3 looks 1
?3
";

#[test]
fn tells_files_that_are_too_long(rt: HostRuntime) {
    assert!(rt; put_long(&rt, "judged.full", LIMIT).is_ok());
    assert!(rt; put_long(&rt, "judged.long", LIMIT + 1).is_ok());
    assert_examples(&rt, LARGE);
}

/// A list whose lines have answers of all kinds but want of memory; the last one lacks its end.
const MIXED: &str =
    "duo\tduo.plan\nduo\tnone\n\ncup\tcup.bpln\nring\tduo.plan\nduo\t\nduo\tduo.bpln";

/// The first lines of a text, as many as there are ends of lines in another one, and the lines after them.
fn parted<'a>(text: &'a str, other: &str) -> (&'a str, &'a str) {
    let mut left = other.bytes().filter(|byte| *byte == b'\n').count();
    let mut place = 0;
    for (n, byte) in text.bytes().enumerate() {
        if byte == b'\n' && left > 0 {
            left -= 1;
            place = n.saturating_add(1);
        }
    }
    if left > 0 {
        return (text, "");
    }
    (
        text.get(..place).unwrap_or(text),
        text.get(place..).unwrap_or(""),
    )
}

/// Where standard input fails, the lines before are answered, and the one that it breaks off is not.
#[test]
fn answers_the_lines_before_its_source_fails(rt: HostRuntime) {
    assert_examples(&rt, "");
    let right = end_of_list(&rt, MIXED);
    assert_case(&rt, right.output.text(), right.status == 3);
    for calls in 0..=MIXED.len() {
        let left = MIXED.as_bytes();
        let end = end_with(&rt, "burr judge", Drips { left, calls });
        let given = MIXED.get(..calls).unwrap_or(MIXED);
        let (answered, _) = parted(right.output.text(), given);
        assert_case(&rt, given, end.is(3, answered, "cannot read -\n"));
    }
}

/// Where standard output fails within an answer, no line after that of the answer is read.
#[test]
fn reads_no_line_after_an_answer_that_cannot_be_written(rt: HostRuntime) {
    assert_examples(&rt, "");
    let words = words_of(&rt, "burr judge");
    let right = end_of_list(&rt, MIXED);
    let told = right.output.text();
    for room in 0..told.len() {
        let mut end = End::new();
        end.output.room = room;
        let mut list = Drips::of(MIXED);
        end.call(&rt, &words, &mut list);
        let front = told.get(..room).unwrap_or(told);
        let (_, from) = parted(MIXED, front);
        let (_, rest) = parted(from, "\n");
        let is_so = end.is(3, front, "cannot write -\n") && list.left == rest.as_bytes();
        assert_case(&rt, front, is_so);
    }
}

/// Counts the lines that are read and those that are written, and tells whether one was read before the
/// answer to the line before it was written.
#[derive(Drop)]
struct Lines {
    read: Cell<usize>,
    written: Cell<usize>,
    is_early: Cell<bool>,
}

impl Lines {
    /// Counts the ends of lines in some bytes.
    fn count(count: &Cell<usize>, bytes: &[u8]) {
        for byte in bytes {
            if *byte == b'\n' {
                count.set(count.get().saturating_add(1));
            }
        }
    }
}

/// A reader that gives a byte a call, and counts lines.
#[derive(Drop)]
struct Counted<'a> {
    drips: Drips<'a>,
    lines: &'a Lines,
}

impl Read for Counted<'_> {
    fn read(&mut self, buffer: &mut [u8]) -> io::Result<usize> {
        if self.lines.read.get() != self.lines.written.get() {
            self.lines.is_early.set(true);
        }
        let count = self.drips.read(buffer)?;
        Lines::count(&self.lines.read, buffer.get(..count).unwrap_or(&[]));
        Ok(count)
    }
}

/// A writer that takes all that it is given, and counts lines.
#[derive(Drop)]
struct Counting<'a> {
    lines: &'a Lines,
}

impl Write for Counting<'_> {
    fn write(&mut self, bytes: &[u8]) -> io::Result<usize> {
        Lines::count(&self.lines.written, bytes);
        Ok(bytes.len())
    }

    fn flush(&mut self) -> io::Result<()> {
        Ok(())
    }
}

/// Each line is answered before a byte of the next one is read.
#[test]
fn answers_a_line_before_it_reads_the_next(rt: HostRuntime) {
    assert_examples(&rt, "");
    let words = words_of(&rt, "burr judge");
    let lines = Lines {
        read: Cell::new(0),
        written: Cell::new(0),
        is_early: Cell::new(false),
    };
    let drips = Drips::of(MIXED);
    let mut complaint = Room::new();
    let mut io: Streams<_, _, _, 4096, 64> = Streams {
        source: Reading::new(Counted {
            drips,
            lines: &lines,
        }),
        sink: LineWriter::new(Writing::new(Counting { lines: &lines })),
        errors: LineWriter::new(Writing::new(&mut complaint)),
    };
    let status = run_words(&rt, &words, &mut io);
    assert_case(&rt, "status", status == 3);
    assert_case(&rt, "early", !lines.is_early.get());
    // the last line has no end
    assert_case(&rt, "read", lines.read.get() == 6);
    assert_case(&rt, "written", lines.written.get() == 7);
}

/// The assemblies of the examples, a faulty one, and one that is not there.
const ASSEMBLIES: &str = "\
duo
ring
cup
square
solid-six
six-boards
judged.crowd
";

/// Plan texts of the examples, some of them with a slip, and a file that is no plan text.
const PLANS: &str = "\
duo.plan
ring.plan
cup.plan
cup-pause.plan
lift.plan
square.plan
solid-six.plan
six-boards.plan
judged.short
judged.through
judged.tray
judged.guard
judged.wrong
judged.empty
";

/// Makes those that are faulty.
const SLIPS: &str = "\
@duo
/piece B cube +x+y+z 1/piece B cube +x+y+z 0
=judged.crowd
@ring.plan
/ring 2 11/ring 2 10
=judged.short
@duo.plan
/aside -x/aside +x
=judged.through
@square.plan
/aside -x 2/aside -x 1
=judged.tray
@cup.plan
/guard 0+1v0-1v1/guard 0
=judged.guard
@ring.plan
/proc main 0/proc main zero
=judged.wrong
=judged.empty
";

/// What `asm` says of a plan text, or `check` of its container, which is made as `judged.bpln`.
fn said_of<T: Abort + Files + AllocGlobal>(rt: &T, assembly: &str, plan: &str) -> End {
    let alloc = rt.alloc();
    let line = format!(in alloc; "burr asm {plan} judged.bpln").expect(rt, "memory");
    let made = end_of(rt, &line, "");
    if made.status != 0 {
        return made;
    }
    let line = format!(in alloc; "burr check {assembly} judged.bpln").expect(rt, "memory");
    end_of(rt, &line, "")
}

/// Asserts that of a list of one line.
fn assert_judged<T: Abort + Files + AllocGlobal>(rt: &T, assembly: &str, plan: &str, said: &End) {
    let list = format!(in rt.alloc(); "{assembly}\t{plan}\n").expect(rt, "memory");
    let status = said.status;
    let told = format!(in rt.alloc(); "1 {status} {}", said.output.text()).expect(rt, "memory");
    let end = end_of_list(rt, &list);
    assert_case(rt, &list, end.is(status, &told, ""));
}

/// Adds the answer to a line of a list.
fn add_said<T: Abort>(rt: &T, told: &mut String, number: usize, said: &End) {
    let status = said.status;
    let line = said.output.text();
    assert!(rt; write!(told, "{number} {status} {line}").is_ok());
}

/// Judges each of the plans for an assembly, by itself and in a list.
fn assert_judged_alike<T: Abort + Files + AllocGlobal>(rt: &T, assembly: &str) {
    let mut list = String::new(rt.alloc());
    let mut told = String::new(rt.alloc());
    let mut worst = 0u8;
    for (place, plan) in PLANS.lines().enumerate() {
        // where both are faulty the assembly is refused, and `check` alone says how
        let of_text = said_of(
            rt,
            assembly,
            if assembly == "judged.crowd" {
                "duo.plan"
            } else {
                plan
            },
        );
        assert_judged(rt, assembly, plan, &of_text);
        if of_text.output.text().starts_with("refused P") {
            assert_case(rt, plan, of_text.status == 1);
        } else {
            assert_judged(rt, assembly, "judged.bpln", &of_text);
        }
        assert!(rt; write!(list, "{assembly}\t{plan}\n").is_ok());
        add_said(rt, &mut told, place.saturating_add(1), &of_text);
        worst = worst.max(of_text.status);
    }
    let end = end_of_list(rt, &list);
    assert_case(rt, assembly, end.is(worst, &told, ""));
}

/// A line says what `asm` and `check` say of its files, whether the plan is a text or a container, and
/// whatever lines stand before it.
#[test]
fn judges_as_asm_and_check(rt: HostRuntime) {
    assert_examples(&rt, PUZZLES);
    assert_transcript(&rt, LIFT);
    assert_transcript(&rt, GROUP);
    assert_transcript(&rt, SLIPS);
    for assembly in ASSEMBLIES.lines() {
        assert_judged_alike(&rt, assembly);
    }
}

/// Each front of a container, and what `check` says of it; one that does not even have the first four
/// bytes is a plan text, and none.
#[test]
fn judges_fronts_of_a_container(rt: HostRuntime) {
    assert_examples(&rt, "");
    let bytes = fs::read(&rt, "duo.bpln").expect(&rt, "a container");
    for count in 0..bytes.len() {
        let front = bytes.get(..count).unwrap_or(&[]);
        assert!(rt; fs::write(&rt, "judged.front", front).is_ok());
        let line = if count < 4 {
            "burr asm judged.front made"
        } else {
            "burr check duo judged.front"
        };
        let said = end_of(&rt, line, "");
        assert_case(&rt, line, said.status == 1);
        assert_judged(&rt, "duo", "judged.front", &said);
    }
}
