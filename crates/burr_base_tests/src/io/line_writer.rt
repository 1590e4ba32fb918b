//! Whole lines: what each call of the sink below takes.
use crate::asserts::{assert_at, assert_case};
use burr_io::{LineWriter, Sink, Writing, put_all};
use burr_testing::Narrow;
use std::alloc::{AllocError, Global};
use std::io::{self, ErrorKind, Write};
use std::process::Abort;

/// A writer that takes all that a call brings, and keeps a `|` after it.
#[derive(Drop)]
struct Calls {
    log: Vec<u8>,
}

impl Write for Calls {
    fn write(&mut self, bytes: &[u8]) -> io::Result<usize> {
        self.log.extend_from_slice(bytes)?;
        self.log.push(b'|')?;
        Ok(bytes.len())
    }

    fn flush(&mut self) -> io::Result<()> {
        Ok(())
    }
}

/// The calls that take a text which is put in portions, cut at `/`, and then flushed, of a sink that
/// holds back up to 8 bytes.
fn calls_of(alloc: Global, portions: &str) -> Result<Vec<u8>, AllocError> {
    let mut calls = Calls {
        log: Vec::new(alloc),
    };
    let mut sink: LineWriter<_, 8> = LineWriter::new(Writing::new(&mut calls));
    for portion in portions.split('/') {
        let _ = put_all(portion.as_bytes(), &mut sink);
    }
    let _ = sink.flush();
    Ok(calls.log)
}

/// Portions that are put, and after `=` the calls that take them; a `$` stands between two cases.
const CALLS: &str = "=\
$a=a|\
$ab\n=ab\n|\
$ab\n/cd\n/=ab\ncd\n|\
$ab\n/cd\n/ef=ab\ncd\nef|\
$ab\n/cd\n/efg\n=ab\ncd\n|efg\n|\
$ab\ncd\nefg\n=ab\ncd\n|efg\n|\
$ab\n/cd\n/ef/\ngh=ab\ncd\n|ef\ngh|\
$abcdefg\n=abcdefg\n|\
$abcdefgh\n=abcdefgh|\n|\
$abcdefghij\nk\n=abcdefgh|ij\nk\n|\
$a\nbcdefghijkl\n=a\n|bcdefghi|jkl\n|\
$\n\n\n\n\n\n\n\n\n=\n\n\n\n\n\n\n\n|\n|";

/// Asserts the calls that take portions.
fn assert_calls(rt: &impl Abort, alloc: Global, case: &str) {
    let (portions, wanted) = case.split_once('=').expect(rt, "a case has calls");
    let calls = calls_of(alloc, portions).expect(rt, "memory");
    assert_case(rt, case, calls.as_slice() == wanted.as_bytes());
}

#[test]
fn flushes_whole_lines(rt: HostRuntime) {
    for case in CALLS.split('$') {
        assert_calls(&rt, rt.alloc(), case);
    }
}

/// Puts a text and flushes it, over a writer that takes a byte a call, save at one call, where it
/// fails or takes none; whether all went.
fn is_put_into(writer: &mut Narrow, text: &[u8]) -> bool {
    let mut sink: LineWriter<_, 4> = LineWriter::new(Writing::new(writer));
    let put = put_all(text, &mut sink);
    let flushed = sink.flush();
    put.is_ok() && flushed.is_ok() && !sink.failed()
}

/// Asserts that the writer took a front of the text, that a failure was told, and that after it the
/// writer was not called again.
fn assert_front(rt: &impl Abort, writer: &mut Narrow, text: &[u8]) {
    let room = writer.refuses_at;
    let all = is_put_into(writer, text);
    assert_at(rt, room, all == (room >= text.len()));
    let taken = room.min(text.len());
    assert_at(rt, room, writer.taken.as_slice() == &text[..taken]);
    let calls = if all { taken } else { taken + 1 };
    assert_at(rt, room, writer.calls == calls);
}

#[test]
fn hands_on_a_front_where_the_sink_below_fails(rt: HostRuntime) {
    let text = b"a\nbc\ndefghijk\n\nl";
    for refuses_at in 0..=text.len() {
        for fault in [Some(ErrorKind::Other), None] {
            let mut writer = Narrow::new(rt.alloc(), refuses_at, fault);
            assert_front(&rt, &mut writer, text);
        }
    }
}
