//! Command lines as a text: what they are given, and how they end.
use super::examples::EXAMPLES;
use super::*;

/// A command line, its input, and what it has to print.
#[derive(Drop)]
struct Case {
    line: String,
    input: String,
    /// The calls of standard input before it fails.
    calls: usize,
    output: String,
    complaint: String,
}

impl Case {
    fn new(alloc: Global) -> Case {
        Case {
            line: String::new(alloc),
            input: String::new(alloc),
            calls: usize::MAX,
            output: String::new(alloc),
            complaint: String::new(alloc),
        }
    }

    /// Takes up a line of a transcript; false where it does not hold.
    fn take<T: Abort + Files + AllocGlobal>(&mut self, rt: &T, line: &str) -> bool {
        let mut rest = line.chars();
        let mark = rest.next().unwrap_or(' ');
        let text = rest.as_str();
        match mark {
            '<' => add(&mut self.input, text, "\n"),
            '>' => add(&mut self.output, text, "\n"),
            '!' => add(&mut self.complaint, text, "\n"),
            '$' => add(&mut self.line, text, ""),
            _ => self.act(rt, mark, text),
        }
    }

    /// Does what a mark says with its text; false where that can't be done, or does not hold.
    fn act<T: Abort + Files + AllocGlobal>(&mut self, rt: &T, mark: char, text: &str) -> bool {
        match mark {
            '&' => self.fail_after(text),
            '@' => self.read(rt, text),
            '=' => self.write(rt, text),
            '/' => self.change(rt.alloc(), text),
            '~' => are_named_alike(rt, text),
            _ => self.end(rt, text),
        }
    }

    /// Standard input fails after the input and a text.
    fn fail_after(&mut self, text: &str) -> bool {
        let is_added = add(&mut self.input, text, "");
        self.calls = self.input.len();
        is_added
    }

    /// The input is that of a file.
    fn read<T: Files + AllocGlobal>(&mut self, rt: &T, name: &str) -> bool {
        match fs::read_to_string(rt, name) {
            Ok(text) => {
                self.input = text;
                true
            }
            Err(_) => false,
        }
    }

    /// The input is no input but a file.
    fn write<T: Files>(&mut self, rt: &T, name: &str) -> bool {
        let written = fs::write(rt, name, &self.input);
        self.input.clear();
        written.is_ok()
    }

    /// Puts a text of the input in place of another one; a `/` stands between them.
    fn change(&mut self, alloc: Global, change: &str) -> bool {
        let (old, new) = change.split_once('/').unwrap_or((change, ""));
        match self.input.replace(alloc, old, new) {
            Ok(text) => {
                self.input = text;
                true
            }
            Err(_) => false,
        }
    }

    /// Calls the program, and tells whether it ends so; the next line begins another case.
    fn end<T: Abort + Files + AllocGlobal>(&mut self, rt: &T, status: &str) -> bool {
        let left = self.input.as_bytes();
        let calls = self.calls;
        let end = end_with(rt, &self.line, Drips { left, calls });
        let is_so = end.is(digit(status), &self.output, &self.complaint);
        assert_printed(rt, is_so, &self.line, &end);
        self.clear();
        is_so
    }

    /// Begins another case.
    fn clear(&mut self) {
        self.line.clear();
        self.input.clear();
        self.calls = usize::MAX;
        self.output.clear();
        self.complaint.clear();
    }
}

/// Asserts that a command line printed what it should, and else tells what it printed.
fn assert_printed<T: Abort>(rt: &T, is_so: bool, line: &str, end: &End) {
    let printed = end.output.text();
    let told = end.complaint.text();
    assert!(rt; is_so, "{line}\n{printed}{told}");
}

/// Whether two files are alike; a blank stands between their names.
fn are_named_alike<T: Files + AllocGlobal>(rt: &T, names: &str) -> bool {
    match names.split_once(' ') {
        Some((name, other)) => are_alike(rt, name, other),
        None => false,
    }
}

/// Adds two texts to a text; false where there is no memory for them.
pub fn add(text: &mut String, more: &str, end: &str) -> bool {
    text.push_str(more).is_ok() && text.push_str(end).is_ok()
}

/// The number that a digit stands for.
pub fn digit(text: &str) -> u8 {
    match text.as_bytes() {
        [digit] => digit.wrapping_sub(b'0'),
        _ => u8::MAX,
    }
}

/// Goes through the lines of a transcript. What a line is, is told by its first byte:
///
/// ```text
/// <TEXT    a line of standard input, or of a file
/// &TEXT    standard input fails after the lines so far and this text
/// @NAME    the lines of a file
/// /OLD/NEW the lines so far, with a new text in place of an old one
/// =NAME    the lines so far are no input but a file of this name
/// ~ONE TWO these files are alike, byte for byte
/// $WORDS   the command line
/// >TEXT    a line of standard output
/// !TEXT    a line of standard error
/// ?N       the command line ends with this status, having printed this, and no more
/// ```
pub fn assert_transcript<T: Abort + Files + AllocGlobal>(rt: &T, transcript: &str) {
    let mut case = Case::new(rt.alloc());
    assert_lines(rt, &mut case, transcript);
}

/// Goes through the lines of a transcript.
fn assert_lines<T: Abort + Files + AllocGlobal>(rt: &T, case: &mut Case, transcript: &str) {
    for line in transcript.lines() {
        let is_so = case.take(rt, line);
        assert_case(rt, line, is_so);
    }
}

/// Makes the files of the examples, and goes through the lines of a transcript.
pub fn assert_examples<T: Abort + Files + AllocGlobal>(rt: &T, transcript: &str) {
    assert_transcript(rt, EXAMPLES);
    assert_transcript(rt, transcript);
}
