//! What was expected where a line of a plan text is faulty, and what was found there.

mod before;
mod grammar;
mod names;

use before::{Before, Due};
use burr_lines::{Line, Report, Shown, lines_of};
use burr_text::integer;
use grammar::{LINES, LineForm};
use names::{Nearest, mended};
use std::alloc::{AllocError, Global};

/// What no line of the grammar has between two line feeds, and what is said of it.
const BLEMISHES: [(&str, &str); 6] = [
    (
        "\r\n",
        "the line ends by a carriage return and a line feed (CRLF): it has to end by a line feed alone",
    ),
    (
        ";",
        "a comment stands on a line of its own, which begins with `;`",
    ),
    (
        "\t",
        "a tab stands in the line: words are separated by one blank",
    ),
    ("\n ", "a blank stands before the first word"),
    (" \n", "a blank stands at the end of the line"),
    (
        "  ",
        "two blanks stand in a row: words are separated by one blank",
    ),
];

const FRAME_LINES: &str = "after `label` come, in this order: `frame`, `slot`, `guard`, `stack`, \
                           `cost`, `at`";

const EXIT_LINES: &str = "after `proc` come, in this order: `exit`, `result`, `guard`, `at`";

/// The longest word for which a nearest one is looked for.
const LONGEST: usize = 32;

/// One more word than the longest line has.
const MOST_WORDS: usize = 10;

/// Says what was expected where a plan text is faulty.
#[derive(Drop)]
struct Expectation<'a> {
    alloc: Global,
    file: &'a str,
    lines: Vec<Line<'a>>,
    /// Whether the text ends by a line feed.
    is_ended: bool,
    before: Before<'a>,
    report: Report,
}

impl<'a> Expectation<'a> {
    /// Says what was expected at the line of this number, by a fault of this code.
    fn add(&mut self, code: &str, number: usize) -> Result<(), AllocError> {
        let is_last = number == self.lines.len();
        match self.lines.get(number.saturating_sub(1)).copied() {
            None => self.add_place(b""),
            Some(_) if is_last && !self.is_ended => self.note("the last line has no line feed"),
            Some(line) => match code {
                "P2" => return self.add_name(&line),
                "P4" => self.note(limit_of(line.word(0), self.before.word)),
                _ => return self.add_line(code, &line),
            },
        }
        Ok(())
    }

    /// Notes something of the line that was named last.
    fn note<D: std::fmt::Display + Drop>(&mut self, note: D) {
        self.report.add_note(note);
    }

    /// Says why a line is not of the grammar, out of its ranges, or does not stand there; where a part
    /// of the text is missing before it, its first word alone counts.
    fn add_line(&mut self, code: &str, line: &Line<'a>) -> Result<(), AllocError> {
        let Some(text) = text_of(line.bytes) else {
            self.note("a byte of the line is not of ASCII, as those of a byte order mark");
            return Ok(());
        };
        let words: Vec<&str> = text.split(' ').take(MOST_WORDS).collect(self.alloc)?;
        let is_said = match (LineForm::of(&words, &self.before), code) {
            (None, _) => self.add_blemish(text)? || self.add_unknown_word(line.word(0))?,
            (Some(form), "P3") => self.add_misfit(form, &words, true)? || self.add_range(&words),
            (Some(form), "P1") => self.add_blemish(text)? || self.add_misfit(form, &words, false)?,
            _ => false,
        };
        if !is_said {
            self.add_place(line.word(0));
        }
        Ok(())
    }

    /// Says what is wrong with a line, whatever its words are, if something is.
    fn add_blemish(&mut self, line: &str) -> Result<bool, AllocError> {
        let line = format!(in self.alloc; "\n{line}\n")?;
        for (blemish, note) in BLEMISHES {
            if line.contains(blemish) {
                self.note(note);
                return Ok(true);
            }
        }
        Ok(false)
    }

    /// Says that no line begins with a word.
    fn add_unknown_word(&mut self, bytes: &[u8]) -> Result<bool, AllocError> {
        let word = text_of(bytes).unwrap_or("");
        if word == "auto" {
            self.note("`auto` stands right after `label`, in place of a frame");
            return Ok(true);
        }
        let small = word.to_ascii_lowercase(self.alloc)?;
        let mut nearest = Nearest::new(self.alloc, &small);
        if word.len() <= LONGEST {
            for (known, _) in LINES {
                nearest.offer(*known)?;
            }
        }
        let shown = Shown(bytes);
        let reason = if nearest.is_exact() {
            ": words are in small letters"
        } else {
            ""
        };
        self.note(format_args!("no line begins with `{shown}`{reason}"));
        self.add_meant(nearest.word());
        Ok(true)
    }

    /// Says what may be meant.
    fn add_meant(&mut self, guess: Option<&str>) {
        if let Some(guess) = guess {
            self.note(format_args!("perhaps `{guess}` is meant"));
        }
    }

    /// Says which word of a line is not of its form, or is out of its range where ranges count, if one
    /// is.
    fn add_misfit(
        &mut self,
        form: LineForm,
        words: &[&str],
        ranges_count: bool,
    ) -> Result<bool, AllocError> {
        let Some(place) = form.misfit(words, &self.before, ranges_count) else {
            return Ok(false);
        };
        match (words.get(place.saturating_add(1)), form.operands.get(place)) {
            (Some(word), Some(operand)) => {
                let shown = Shown(word.as_bytes());
                self.note(format_args!("`{shown}` stands where {operand}"));
                if !operand.is_written(word) {
                    self.add_meant(mended(self.alloc, operand, word)?.as_deref());
                }
            }
            (Some(word), None) => {
                let shown = Shown(word.as_bytes());
                self.note(format_args!("`{shown}` stands where the line has to end"));
            }
            (None, Some(operand)) => self.note(format_args!("the line ends where {operand}")),
            (None, None) => {}
        }
        self.note(format_args!("such a line is written `{form}`"));
        if form.word == "step" {
            self.note("a step is one unit");
        }
        Ok(true)
    }

    /// Says that numbers of a line, each in its range, do not agree.
    fn add_range(&mut self, words: &[&str]) -> bool {
        match words {
            ["proc", ..] => self.note("main has no parameters and no results"),
            [.., low, high] if is_above(low, high) => {
                self.note("LO stands before HI, and is above it")
            }
            ["slot", ..] => self.note("the slots of a frame have to rise"),
            _ => {}
        }
        true
    }

    /// Says what belongs where a line with this first word stands, or where the text ends.
    fn add_place(&mut self, word: &[u8]) {
        let due = self.before.due();
        self.note(format_args!("{due} belongs here"));
        if self.before.is_in_exit() {
            self.note(EXIT_LINES);
        } else if self.before.procedures != 0 {
            self.note(FRAME_LINES);
        }
        if word == b"at".as_slice() || matches!(due, Due::Place(_)) {
            self.add_piece_count();
        }
    }

    /// Names the label whose frame has other than one `at` line for each piece; and the plan's line too,
    /// where that is so in all frames alike.
    fn add_piece_count(&mut self) {
        let (Some(head), Some(plan)) = (self.before.head, self.before.plan) else {
            return;
        };
        let places = self.places_after(&head);
        let pieces = self.before.pieces();
        if places == pieces {
            return;
        }
        self.report.add_line(self.file, &head);
        self.note(format_args!("`at` lines of its frame: {places}, pieces of the plan: {pieces}"));
        if self.all_have(places) {
            self.report.add_line(self.file, &plan);
            self.note(format_args!("`at` lines of each frame: {places}"));
        }
    }

    /// How many `at` lines the frame has that begins with this line.
    fn places_after(&self, head: &Line<'a>) -> usize {
        let mut places: usize = 0;
        for line in self.lines.iter().skip(head.number) {
            match line.word(0) {
                b"at" => places = places.saturating_add(1),
                b"label" | b"proc" | b"exit" => break,
                _ => {}
            }
        }
        places
    }

    /// Whether each frame of the text has this many `at` lines.
    fn all_have(&self, count: usize) -> bool {
        let mut places = count;
        for line in &self.lines {
            match line.word(0) {
                b"at" => places = places.saturating_add(1),
                b"frame" | b"exit" if places != count => return false,
                b"frame" | b"exit" => places = 0,
                _ => {}
            }
        }
        places == count
    }
}

/// Of what there is too much, where a line with this first word stands after one with another.
fn limit_of(word: &[u8], before: &[u8]) -> &'static str {
    match word {
        b"proc" => "a plan has 16 procedures at most",
        b"guard" => "a frame has 4 guards at most",
        b"stack" => "a frame has 8 operands at most",
        b"label" if before == b"at".as_slice() => {
            "code belongs between this label and the one before it"
        }
        b"label" => "code belongs after a label, and a procedure has 256 labels at most",
        _ => "the code of a procedure has 4,096 bytes at most",
    }
}

/// The text of bytes of ASCII.
fn text_of(bytes: &[u8]) -> Option<&str> {
    str::from_utf8(bytes).ok().filter(|text| text.is_ascii())
}

/// Whether two words are numbers, and the first is above the other.
fn is_above(word: &str, other: &str) -> bool {
    match (integer(word.as_bytes()), integer(other.as_bytes())) {
        (Some(number), Some(other)) => other < number,
        _ => false,
    }
}

/// What was expected at a faulty line of a plan text, as notes: by the code of its fault, as `P1`,
/// and its number. Other lines that bear on it are named too.
pub fn expectation_of_line(
    alloc: Global,
    file: &str,
    text: &[u8],
    code: &str,
    number: usize,
) -> Result<String, AllocError> {
    let lines = lines_of(alloc, text)?;
    let mut expectation = Expectation {
        alloc,
        file,
        before: Before::of(&lines, number),
        lines,
        is_ended: text.ends_with(b"\n"),
        report: Report::new(alloc),
    };
    if code.starts_with('P') {
        expectation.add(code, number)?;
    }
    expectation.report.into_text()
}
