//! The program whole: words and streams in, status, output and complaints out.
use burr_io::{LineWriter, Reading, Writing};
use burr_program::{Streams, run_words};
use std::alloc::{AllocError, Global};
use std::fs;
use std::io::{self, Read, Write};
use std::process::Abort;
use std::rt::Files;

mod bench;
mod driving;
mod examples;
mod faulty_files;
mod file_calls;
mod file_faults;
mod files;
mod judging;
mod making;
mod memory;
mod plans;
mod results;
mod stepping;
mod streams;
mod trace;
mod transcript;
mod why;

/// The most bytes of a file, and of standard input.
const LIMIT: usize = 16_777_216;

/// Asserts what a test is about, of one of its cases.
fn assert_case<T: Abort>(rt: &T, case: &str, is_so: bool) {
    assert!(rt; is_so, "{case}");
}

/// The words of a command line, the program's name first.
fn words_of<T: Abort + AllocGlobal>(rt: &T, line: &str) -> Vec<String> {
    let mut words = Vec::new(rt.alloc());
    let added = add_words(&mut words, rt.alloc(), line);
    assert!(rt; added.is_ok());
    words
}

/// Adds the words of a line; a blank stands between two of them. No text is no words.
fn add_words(words: &mut Vec<String>, alloc: Global, line: &str) -> Result<(), AllocError> {
    for word in line.split_whitespace() {
        words.push(String::from_str(alloc, word)?)?;
    }
    Ok(())
}

/// A text with others in place of each of these.
fn replaced<T: Abort + AllocGlobal>(rt: &T, text: &str, old: &str, new: &str) -> String {
    text.replace(rt.alloc(), old, new).expect(rt, "memory")
}

/// A reader that gives a byte a call, and fails once `calls` more calls have been made.
#[derive(Drop)]
struct Drips<'a> {
    left: &'a [u8],
    calls: usize,
}

impl<'a> Drips<'a> {
    /// A reader that gives all of a text.
    fn of(text: &'a str) -> Drips<'a> {
        Drips {
            left: text.as_bytes(),
            calls: usize::MAX,
        }
    }
}

impl Read for Drips<'_> {
    fn read(&mut self, buffer: &mut [u8]) -> io::Result<usize> {
        if self.calls == 0 {
            return Err(io::Error::from(io::ErrorKind::Other));
        }
        self.calls -= 1;
        let count = buffer.len().min(1);
        self.left.read(&mut buffer[..count])
    }
}

/// The most bytes that the program prints here.
const MOST: usize = 4096;

/// A writer that takes a byte a call, as long as it has room, and then takes none or fails. It needs no
/// memory.
#[derive(Drop)]
struct Room {
    bytes: [u8; MOST],
    count: usize,
    room: usize,
    fails: bool,
}

impl Room {
    /// All the room that there is.
    fn new() -> Room {
        Room {
            bytes: [0; MOST],
            count: 0,
            room: MOST,
            fails: true,
        }
    }

    /// The text that it took.
    fn text(&self) -> &str {
        let bytes = self.bytes.get(..self.count).unwrap_or(&[]);
        str::from_utf8(bytes).unwrap_or("no UTF-8")
    }
}

impl Write for Room {
    fn write(&mut self, bytes: &[u8]) -> io::Result<usize> {
        let Some(first) = bytes.first() else {
            return Ok(0);
        };
        if self.count < self.room {
            if let Some(place) = self.bytes.get_mut(self.count) {
                *place = *first;
                self.count += 1;
                return Ok(1);
            }
        }
        if self.fails {
            return Err(io::Error::from(io::ErrorKind::Other));
        }
        Ok(0)
    }

    fn flush(&mut self) -> io::Result<()> {
        Ok(())
    }
}

/// How a call of the program ended.
#[derive(Drop)]
struct End {
    status: u8,
    output: Room,
    complaint: Room,
}

impl End {
    /// Before the call: with ample room for what it prints.
    fn new() -> End {
        End {
            status: 0,
            output: Room::new(),
            complaint: Room::new(),
        }
    }

    /// Calls the program over a reader. Few bytes of lines are held back, so that what is long is handed
    /// on in parts.
    fn call<T: Files + AllocGlobal, R: Read + Drop>(
        &mut self,
        rt: &T,
        words: &[String],
        mut input: R,
    ) {
        let mut io: Streams<_, _, _, 64, 64> = Streams {
            source: Reading::new(&mut input),
            sink: LineWriter::new(Writing::new(&mut self.output)),
            errors: LineWriter::new(Writing::new(&mut self.complaint)),
        };
        self.status = run_words(rt, words, &mut io);
    }

    /// Whether it ended with this status, and these texts on standard output and standard error.
    fn is(&self, status: u8, output: &str, complaint: &str) -> bool {
        self.status == status && self.output.text() == output && self.complaint.text() == complaint
    }

    /// Whether the other call ended so too.
    fn is_like(&self, other: &End) -> bool {
        self.is(other.status, other.output.text(), other.complaint.text())
    }
}

/// How a call of the program over a reader ends.
fn end_over<T: Files + AllocGlobal, R: Read + Drop>(rt: &T, words: &[String], input: R) -> End {
    let mut end = End::new();
    end.call(rt, words, input);
    end
}

/// How a command line over a reader ends.
fn end_with<T: Abort + Files + AllocGlobal, R: Read + Drop>(rt: &T, line: &str, input: R) -> End {
    end_over(rt, &words_of(rt, line), input)
}

/// How a command line with an input ends.
fn end_of<T: Abort + Files + AllocGlobal>(rt: &T, line: &str, input: &str) -> End {
    end_with(rt, line, Drips::of(input))
}

/// Whether two files are alike, byte for byte.
fn are_alike<T: Files + AllocGlobal>(rt: &T, name: &str, other: &str) -> bool {
    let one = fs::read(rt, name).ok();
    let two = fs::read(rt, other).ok();
    one.as_deref() == two.as_deref()
}
