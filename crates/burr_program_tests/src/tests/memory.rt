//! A want of memory, without words and with them.
use super::examples::{DUO, EXAMPLES};
use super::transcript::assert_transcript;
use super::*;
use std::os::unix::fs::MetadataExt;

/// The most blocks of memory that are taken.
const MOST_BLOCKS: usize = 60_000;

/// How many bytes farther down the stack calls are made for it to grow.
const DEEPER: usize = 16_384;

/// Takes all memory that can be had, in blocks of halving sizes.
fn take_all_memory(alloc: Global, blocks: &mut Vec<Vec<u8>>) {
    let mut size = 1usize << 46;
    for _ in 0..47 {
        for _ in 0..MOST_BLOCKS {
            if blocks.len() >= MOST_BLOCKS {
                break;
            }
            let Ok(block) = Vec::with_capacity(alloc, size) else {
                break;
            };
            if blocks.push(block).is_err() {
                break;
            }
        }
        size = (size / 2).max(1);
    }
}

/// The number that the system has for the file that commands make here; a new file in its place has
/// another one.
fn number_of_made<T: Files>(rt: &T) -> Option<u64> {
    match fs::metadata(rt, "made") {
        Ok(file) => Some(file.ino()),
        Err(_) => None,
    }
}

/// Whether a call wants memory: its status, with its complaint alone or the answer to a list's first line
/// alone, and the file stands that stood before.
fn is_want<T: Files>(rt: &T, end: &End, made: Option<u64>) -> bool {
    let is_told = end.is(4, "", "no memory\n") || end.is(4, "1 4 no memory\n", "");
    is_told && number_of_made(rt) == made
}

/// How a call ends that is made farther down the stack than others: those that tell a fault need
/// somewhat more of the stack than those that end well.
#[inline(never)]
fn end_farther_down<T: Files + AllocGlobal>(rt: &T, words: &[String], input: &str) -> End {
    // what is looked at after the call stands above it on the stack
    let mut above = [0u8; DEEPER];
    let count = input.len().min(DEEPER);
    above[..count].copy_from_slice(&input.as_bytes()[..count]);
    let end = end_over(rt, words, Drips::of(input));
    if above.starts_with(&input.as_bytes()[..count]) {
        end
    } else {
        End::new()
    }
}

/// Whether a call tells want of memory while none can be had, and with each block that is given back, up
/// to the end that it has with ample memory.
fn is_want_told<T: Files + AllocGlobal>(
    rt: &T,
    words: &[String],
    input: &str,
    blocks: &mut Vec<Vec<u8>>,
) -> bool {
    let right = end_over(rt, words, Drips::of(input));
    let made = number_of_made(rt);
    take_all_memory(rt.alloc(), blocks);
    let mut has_wanted = false;
    for _ in 0..MOST_BLOCKS {
        let end = end_over(rt, words, Drips::of(input));
        if !is_want(rt, &end, made) {
            return has_wanted && end.is_like(&right);
        }
        has_wanted = true;
        blocks.pop();
    }
    false
}

/// Whether a command line tells want of memory so.
fn tells_want<T: Abort + Files + AllocGlobal>(rt: &T, line: &str, input: &str) -> bool {
    let words = words_of(rt, line);
    match Vec::with_capacity(rt.alloc(), MOST_BLOCKS) {
        Ok(mut blocks) => is_want_told(rt, &words, input, &mut blocks),
        Err(_) => false,
    }
}

/// Lets the stack grow farther than these command lines need. It can't do so once all memory was taken:
/// blocks lie beside it then, and some of their room is kept when they are given back.
fn grow_stack<T: Abort + Files + AllocGlobal>(rt: &T, lines: &str, input: &str) {
    for line in lines.lines() {
        let end = end_farther_down(rt, &words_of(rt, line), input);
        assert_case(rt, line, end.status != 4);
    }
}

/// Asserts that of command lines that have an input.
fn assert_wants<T: Abort + Files + AllocGlobal>(rt: &T, lines: &str, input: &str) {
    for line in lines.lines() {
        assert_case(rt, line, tells_want(rt, line, input));
    }
}

/// Command lines without a file.
const WITHOUT_FILES: &str = "\
burr --help
burr --version
burr explain V15
burr solve
burr --
";

#[test]
fn tells_a_want_of_memory(rt: HostRuntime) {
    grow_stack(&rt, "burr", DUO);
    grow_stack(&rt, WITHOUT_FILES, "");
    assert_wants(&rt, "burr", DUO);
    assert_wants(&rt, WITHOUT_FILES, "");
}

/// Command lines that read standard input.
const WITH_INPUT: &str = "\
burr run cup cup.bpln
burr try cup cup.bpln
burr trace cup cup.plan
";

/// Lists of one line.
const LISTS: &str = "\
cup\tcup.bpln
cup\tcup.plan
cup\tduo.bpln
cup.bpln\tcup.plan
";

/// Command lines that read none, or none that is there.
const WITH_FILES: &str = "\
burr cells cup
burr check cup cup.bpln
burr run cup duo.bpln
burr step cup cup.bpln
burr drive cup cup.bpln
burr drive cup cup.plan
burr why cup cup.plan
burr why cup duo.plan
burr frames cup cup.plan made
burr plan duo cup made
burr upgrade cup.bpln made
burr asm cup.plan made
burr list cup.bpln
burr list --places cup.bpln
";

/// A container that was made before stays in its place, and no file is left beside it.
const BESIDE: &str = "\
~made cup.bpln
$burr list made.new0
!cannot read made.new0
?3
";

/// Where the plan's run has all memory that the program asks for, it goes on without more.
#[test]
fn tells_a_want_of_memory_for_files(rt: HostRuntime) {
    assert_transcript(&rt, EXAMPLES);
    grow_stack(&rt, WITH_INPUT, "2\n");
    grow_stack(&rt, WITH_FILES, "");
    assert_wants(&rt, WITH_INPUT, "2\n");
    assert_wants(&rt, WITH_FILES, "");
    assert_transcript(&rt, BESIDE);
}

#[test]
fn tells_a_want_of_memory_for_a_line_of_a_list(rt: HostRuntime) {
    assert_transcript(&rt, EXAMPLES);
    for list in LISTS.lines() {
        grow_stack(&rt, "burr judge", list);
    }
    for list in LISTS.lines() {
        assert_wants(&rt, "burr judge", list);
    }
}

/// A reader that gives a byte a call, takes all memory before a text of what is left, and gives it back
/// before another one.
#[derive(Drop)]
struct Greedy<'a> {
    drips: Drips<'a>,
    greed: &'a str,
    relief: &'a str,
    alloc: Global,
    blocks: Vec<Vec<u8>>,
}

impl<'a> Greedy<'a> {
    /// A reader of a text.
    fn of<T: Abort + AllocGlobal>(
        rt: &T,
        text: &'a str,
        greed: &'a str,
        relief: &'a str,
    ) -> Greedy<'a> {
        let alloc = rt.alloc();
        Greedy {
            drips: Drips::of(text),
            greed,
            relief,
            alloc,
            blocks: Vec::with_capacity(alloc, MOST_BLOCKS).expect(rt, "memory"),
        }
    }
}

impl Read for Greedy<'_> {
    fn read(&mut self, buffer: &mut [u8]) -> io::Result<usize> {
        if self.drips.left == self.greed.as_bytes() {
            take_all_memory(self.alloc, &mut self.blocks);
        }
        if self.drips.left == self.relief.as_bytes() {
            self.blocks.clear();
        }
        self.drips.read(buffer)
    }
}

/// Commands that are answered without more memory, and the same with more of them.
const ANSWERED: &str = "forward\nshow\nback 1\nuntil 0 2\n";

const COMMANDS: &str = "forward\nshow\nback 1\nuntil 0 2\nanswer 1\nshow\n";

const AFTER_FORWARD: &str = "show\nback 1\nuntil 0 2\nanswer 1\nshow\n";

/// Once a dialogue has begun answers alone ask for memory, and what was answered before one of them
/// holds.
#[test]
fn tells_a_want_of_memory_between_commands(rt: HostRuntime) {
    assert_transcript(&rt, EXAMPLES);
    let words = words_of(&rt, "burr step cup cup.bpln");
    let greedy = Greedy::of(&rt, COMMANDS, AFTER_FORWARD, "none");
    // farther down the stack first, as above
    let ample = end_farther_down(&rt, &words, COMMANDS);
    let answered = end_over(&rt, &words, Drips::of(ANSWERED));
    let end = end_over(&rt, &words, greedy);
    assert_case(&rt, "ample", ample.status == 0 && answered.status == 0);
    assert_case(
        &rt,
        "want",
        end.is(4, answered.output.text(), "no memory\n"),
    );
}

/// A list: memory is taken before its second line, and given back before the third one.
const LISTED: &str = "duo\tduo.plan\nduo\tduo.bpln\ncup\tcup.plan\n";

const LAST_TWO: &str = "duo\tduo.bpln\ncup\tcup.plan\n";

const LAST: &str = "cup\tcup.plan\n";

const TOLD: &str = "\
1 0 accepted cost 3 budget 3 looks 1
2 4 no memory
3 0 accepted cost 14 budget 14 looks 6
";

/// A line without memory is answered so, and the next one is judged with the memory that there is then.
#[test]
fn judges_lines_after_one_that_wants_memory(rt: HostRuntime) {
    assert_transcript(&rt, EXAMPLES);
    let words = words_of(&rt, "burr judge");
    let greedy = Greedy::of(&rt, LISTED, LAST_TWO, LAST);
    // farther down the stack first, as above
    let ample = end_farther_down(&rt, &words, LISTED);
    let end = end_over(&rt, &words, greedy);
    assert_case(&rt, "ample", ample.status == 0);
    assert_case(&rt, end.output.text(), end.is(4, TOLD, ""));
}
