//! Sources that give a byte a call, that fail, and that give too much.

use crate::puts::put_bare;
use crate::tables::{Table, edited, lines_of};
use burr_io::Reading;
use burr_runs::{BenchFault, read_whole};
use burr_testing::Portions;
use std::alloc::Global;
use std::io::ErrorKind;
use std::process::Abort;

/// The input of a case: an assembly's text, and after it a text after edits.
pub fn input_of(rt: &impl Abort, alloc: Global, table: &Table, edits: &str) -> String {
    let after = edited(rt, alloc, table.plan, edits);
    let input = format!(in alloc; "{}{after}", table.assembly).expect(rt, "memory");
    lines_of(rt, alloc, &input)
}

/// Whether bare code that comes from a source ends so, and puts this.
fn ends_so(alloc: Global, mut source: Portions<'_>, (end, text): (&str, &str)) -> bool {
    let mut written = Vec::new(alloc);
    let word = put_bare(alloc, &mut source, &mut written);
    word == end && written.as_slice() == text.as_bytes()
}

/// Whether these bytes are read to the end from a source that gives at most `each` of them a call.
fn is_read_whole(alloc: Global, bytes: &[u8], each: usize) -> Result<bool, BenchFault> {
    let read = read_whole(alloc, &mut Reading::new(Portions::new(bytes, each)))?;
    Ok(read.as_slice() == bytes)
}

/// Whether this comes of a case's input from a source that gives a byte a call, and a call that
/// fails, from the first to the one that would tell the end, leaves nothing written.
pub fn reads_portions(
    rt: &impl Abort,
    alloc: Global,
    table: &Table,
    given: &str,
    wanted: &str,
) -> bool {
    let input = input_of(rt, alloc, table, given);
    let bytes = input.as_bytes();
    for made in 0..=bytes.len() {
        let source = Portions::failing(bytes, 1, made, ErrorKind::Other);
        if !ends_so(alloc, source, ("Read", "")) {
            return false;
        }
    }
    let wanted = wanted.split_once(" | ").expect(rt, "a text");
    ends_so(alloc, Portions::new(bytes, 1), wanted) && is_read_whole(alloc, bytes, 1) == Ok(true)
}

/// In each row: how many line ends there are, how many of them are given a call, whether the source
/// fails after them, how that ends, and what is put.
const BLANKS: [(usize, usize, bool, (&str, &str)); 7] = [
    (0, 1, true, ("Read", "")),
    (1, 1, true, ("Read", "")),
    (9000, 1, true, ("Read", "")),
    (16_777_216, 8192, true, ("Read", "")),
    (16_777_217, 8192, true, ("TooLong", "")),
    (16_777_217, 8192, false, ("TooLong", "")),
    (16_777_216, 8192, false, ("Refused", "refused input\n")),
];

#[test]
fn tells_that_a_source_fails_or_is_too_long(rt: HostRuntime) {
    let few = "\n".repeat(rt.alloc(), 4096).expect(&rt, "memory");
    let many = few.repeat(rt.alloc(), 4097).expect(&rt, "memory");
    for (count, each, fails, wanted) in &BLANKS {
        let blanks = many.as_bytes().get(..*count).expect(&rt, "so many");
        let source = if *fails {
            Portions::failing(blanks, *each, *count, ErrorKind::Other)
        } else {
            Portions::new(blanks, *each)
        };
        assert!(rt; ends_so(rt.alloc(), source, *wanted));
    }
}
