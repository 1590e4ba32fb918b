//! burr takes interlocking puzzles apart by programs: `main` gives `run_words` of burr_program the words and the
//! streams of the operating system, and exits with the status that it returns.
#![tactic(auto)]

use burr_io::{LineWriter, Reading, Writing};
use burr_program::{Streams, end_without_words, run_words};
use std::process::ExitCode;
use std::{env, io};

/// How many bytes of lines standard output holds back.
const HELD: usize = 65_536;
/// How many bytes of lines standard error holds back; they are few and short. Both stand on the stack.
const HELD_ERRORS: usize = 2_048;

fn main(rt: HostRuntime) -> ExitCode {
    let mut io: Streams<_, _, _, HELD, HELD_ERRORS> = Streams {
        source: Reading::new(rt.reader()),
        sink: LineWriter::new(Writing::new(rt.stdout())),
        errors: LineWriter::new(Writing::new(rt.stderr())),
    };
    let status = match words(&rt) {
        Ok(words) => run_words(&rt, &words, &mut io),
        Err(error) => end_without_words(error.kind(), &mut io.errors),
    };
    ExitCode::from(status)
}

/// Returns the words of the command line, the program's name first.
fn words(rt: &HostRuntime) -> io::Result<Vec<String>> {
    Ok(env::args(rt)?.collect(rt.alloc())?)
}
