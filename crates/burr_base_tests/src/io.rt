//! Sources and sinks: what readers give and writers take, and what follows a failure.
use crate::asserts::{assert_at, assert_text};
use burr_io::{IoFailed, Reading, Sink, Source, Writing, put_all};
use burr_testing::{Narrow, Portions};
use std::alloc::{AllocError, Global};
use std::io::{Cursor, ErrorKind};
use std::process::Abort;

mod line_writer;

/// What a reader gives: at each call its number.
const NUMBERS: [u8; 8] = [0, 1, 2, 3, 4, 5, 6, 7];

/// Asserts what a call tells that has room for 3 bytes, and what these are then: they were 9 before.
fn assert_pull<S: Source>(
    rt: &impl Abort,
    source: &mut S,
    told: Result<usize, IoFailed>,
    bytes: [u8; 3],
) {
    let mut buffer = [9; 3];
    assert!(rt; source.pull(&mut buffer) == told);
    assert!(rt; buffer == bytes);
    assert!(rt; source.failed() == told.is_err());
}

/// Asserts that a source gives numbers from 0 on, one a call, and then fails at each call.
fn assert_fails_at<S: Source>(rt: &impl Abort, source: &mut S, end: u8) {
    for call in 0..end {
        assert_pull(rt, source, Ok(1), [call, 9, 9]);
    }
    for _ in 0..3u8 {
        assert_pull(rt, source, Err(IoFailed), [9; 3]);
    }
    assert!(rt; source.pull(&mut []) == Err(IoFailed));
}

/// Asserts that a source fails where its reader does, and doesn't call that again.
fn assert_stays_failed(rt: &impl Abort, fails_at: u8, kind: ErrorKind) {
    let count = usize::from(fails_at);
    let mut reader = Portions::failing(&NUMBERS, 1, count, kind);
    assert_fails_at(rt, &mut Reading::new(&mut reader), fails_at);
    assert_at(rt, count, reader.calls == count + 1);
}

/// Once the reader has failed it isn't called again, though it would give more.
#[test]
fn stays_failed_where_the_reader_fails(rt: HostRuntime) {
    for fails_at in 0..4u8 {
        assert_stays_failed(&rt, fails_at, ErrorKind::Other);
        assert_stays_failed(&rt, fails_at, ErrorKind::Interrupted);
    }
}

/// Pulls `abcd` by three bytes a call, and then the end, which is no failure.
fn assert_gives_abcd<S: Source>(rt: &impl Abort, source: &mut S) {
    assert!(rt; source.pull(&mut []) == Ok(0));
    assert_pull(rt, source, Ok(3), *b"abc");
    assert_pull(rt, source, Ok(1), [b'd', 9, 9]);
    assert_pull(rt, source, Ok(0), [9; 3]);
    assert_pull(rt, source, Ok(0), [9; 3]);
}

#[test]
fn gives_what_is_left_and_then_the_end(rt: HostRuntime) {
    assert_gives_abcd(&rt, &mut Reading::new(b"abcd".as_slice()));
    assert_gives_abcd(&rt, &mut Reading::new(Cursor::new(b"abcd".as_slice())));
}

/// Asserts what a sink tells of calls, which `;` joins: `put` and bytes is one call, and `all` and
/// bytes as many as it takes. After each of them `failed` stands where the sink has failed.
fn assert_told<W: Sink>(rt: &impl Abort, alloc: Global, sink: &mut W, calls: &str, wanted: &str) {
    let mut words = String::new(alloc);
    add_all_told(sink, calls, &mut words).expect(rt, "memory");
    assert_text(rt, calls, &words, wanted);
}

/// Adds what a sink tells of calls.
fn add_all_told<W: Sink>(sink: &mut W, calls: &str, words: &mut String) -> Result<(), AllocError> {
    for call in calls.split(';') {
        add_told(sink, call, words)?;
    }
    Ok(())
}

/// Adds what a sink tells of a call.
fn add_told<W: Sink>(sink: &mut W, call: &str, words: &mut String) -> Result<(), AllocError> {
    match call.strip_prefix("put ") {
        Some(bytes) => write!(words, "{:?}", sink.put(bytes.as_bytes()))?,
        None => {
            let bytes = call.strip_prefix("all ").unwrap_or(call);
            write!(words, "{:?}", put_all(bytes.as_bytes(), sink))?;
        }
    }
    words.push_str(if sink.failed() { " failed;" } else { ";" })
}

/// A text is put whole, then more, which fails, and nothing.
const CALLS: &str = "all burrs;all more;put more;put ;all ";

const TOLD: &str = "\
Ok(());Err(WriteFault) failed;Err(IoFailed) failed;Err(IoFailed) failed;Ok(()) failed;";

const TOLD_OF_A_FRONT: &str = "\
Err(WriteFault) failed;Err(WriteFault) failed;Err(IoFailed) failed;Err(IoFailed) failed;\
Ok(()) failed;";

/// Asserts that a writer that refuses after `room` bytes took only these, and that a sink that
/// failed stays failed.
fn assert_front(rt: &impl Abort, alloc: Global, room: usize, fault: Option<ErrorKind>) {
    let mut writer = Narrow::new(alloc, room, fault);
    let wanted = if room < 5 { TOLD_OF_A_FRONT } else { TOLD };
    assert_told(rt, alloc, &mut Writing::new(&mut writer), CALLS, wanted);
    assert_at(
        rt,
        room,
        Some(writer.taken.as_slice()) == b"burrs".get(..room),
    );
    assert_at(rt, room, writer.calls == room.wrapping_add(1));
}

#[test]
fn puts_the_front_that_the_writer_takes(rt: HostRuntime) {
    for room in 0..=5usize {
        assert_front(&rt, rt.alloc(), room, Some(ErrorKind::Other));
        assert_front(&rt, rt.alloc(), room, Some(ErrorKind::Interrupted));
        assert_front(&rt, rt.alloc(), room, None);
    }
}

/// A call for no bytes asks too.
#[test]
fn fails_at_a_call_for_no_bytes(rt: HostRuntime) {
    let mut source = Reading::new(Portions::failing(&NUMBERS, 1, 0, ErrorKind::Other));
    assert!(rt; source.pull(&mut []) == Err(IoFailed));
    assert!(rt; source.failed());
}

/// A call that puts no bytes asks too, and then taking none is no failure, but an error is.
#[test]
fn fails_at_a_call_that_puts_no_bytes(rt: HostRuntime) {
    let alloc = rt.alloc();
    let mut sink = Writing::new(Narrow::new(alloc, 0, Some(ErrorKind::Other)));
    assert_told(&rt, alloc, &mut sink, "put ", "Err(IoFailed) failed;");
    let mut sink = Writing::new(Narrow::new(alloc, 0, None));
    assert_told(&rt, alloc, &mut sink, "put ", "Ok(0);");
}

#[test]
fn puts_into_a_vec(rt: HostRuntime) {
    let mut output = Vec::new(rt.alloc());
    let calls = "put ;put a ;all ;all burr";
    let told = "Ok(0);Ok(2);Ok(());Ok(());";
    assert_told(&rt, rt.alloc(), &mut Writing::new(&mut output), calls, told);
    assert!(rt; output.as_slice() == b"a burr".as_slice());
}

#[test]
fn puts_into_a_cursor(rt: HostRuntime) {
    let mut room = [0; 3];
    let mut sink = Writing::new(Cursor::new(room.as_mut_slice()));
    assert_told(
        &rt,
        rt.alloc(),
        &mut sink,
        "all burr",
        "Err(WriteFault) failed;",
    );
    assert!(rt; room == *b"bur");
}
