ghost use Rattle.std.specs.Prelude.{◌≡◌, ◌<◌, [], length, map, IsErr, IsTrue, OnOk, OnErr, false};
ghost use Rattle.std.specs.Io.KnownBytes.{Keeps};
ghost use Rattle.burr_text.specs.Words.{text_line};
ghost use Rattle.burr_io.specs.Sink.{Puts, TakesShort};

use crate::sink::{IoFailed, Sink, WriteFault};
use itoa::{Buffer, Integer};
use std::alloc::Global;
use std::io::Write;
use thiserror::Error;

/// Any writer as a sink: an error of the writer, or no byte taken of some, is the sink's failure.
#[derive(Debug, Drop)]
pub struct Writing<W> {
    writer: W,
    failed: bool,
}

impl<W: Write> Writing<W> {
    ghost use Rattle.std.specs.Prelude.{◌≡◌, false};

    /// A sink over a writer, which it keeps. It never flushes the writer.
    pub fn new(writer: W) -> Writing<W>
        ensures taken { ⟦<Writing<W> as Sink>⟧.taken result ≡ W.contents writer }
        ensures fresh { ⟦<Writing<W> as Sink>⟧.has_failed result ≡ false }
    {
        Writing {
            writer,
            failed: false,
        }
    }
}

impl<W: Write> Sink for Writing<W> {
    ghost use Rattle.std.specs.Prelude.{◌≡◌, ◌≤◌, ◌<◌, length, is_err, IsErr, IsTrue, IfOk};
    ghost use Rattle.std.specs.Io.KnownBytes.{WriteAppends};

    ghost taken = { λ s. W.contents s.writer };

    ghost has_failed = { λ s. s.failed };

    // The clauses of the trait, and that a sink that has failed leaves its writer alone.
    fn put(&mut self, bytes: &[u8]) -> Result<usize, IoFailed>
        ensures bound { IfOk result (λ n. n ≤ length bytes.now) }
        ensures some { IfOk result (λ n. 0 < length bytes.now → 0 < n) }
        ensures bytes { let taken = ⟦<Writing<W> as Sink>⟧.taken in
            WriteAppends (taken self.old) (taken self.new) result bytes.now }
        ensures fails { ⟦<Writing<W> as Sink>⟧.has_failed self.new ≡ is_err result }
        ensures for_good { IsTrue (⟦<Writing<W> as Sink>⟧.has_failed self.old) → IsErr result }
        ensures stays { IsTrue (⟦<Writing<W> as Sink>⟧.has_failed self.old) → self.new ≡ self.old }
    {
        if self.failed {
            return Err(IoFailed);
        }
        match self.writer.write(bytes) {
            Ok(count) if count > 0 || bytes.is_empty() => Ok(count),
            _ => {
                self.failed = true;
                Err(IoFailed)
            }
        }
    }

    fn failed(&self) -> bool {
        self.failed
    }
}

/// A sink that keeps the bytes that it takes in memory. It fails only where a request for memory is
/// refused.
#[derive(Debug, Drop)]
pub struct VecSink {
    bytes: Vec<u8>,
    failed: bool,
}

impl VecSink {
    ghost use Rattle.std.specs.Prelude.{◌≡◌, [], Some};

    /// A sink that has taken nothing.
    pub fn new(alloc: Global) -> VecSink
        ensures { ⟦<VecSink as Sink>⟧.taken result ≡ Some [] }
    {
        VecSink {
            bytes: Vec::new(alloc),
            failed: false,
        }
    }

    /// The bytes that it has taken.
    pub fn as_bytes(&self) -> &[u8]
        ensures { ⟦<VecSink as Sink>⟧.taken self.now ≡ Some result.now }
    {
        &self.bytes
    }

    /// The bytes that it has taken, handed out.
    pub fn into_bytes(self) -> Vec<u8>
        ensures { ⟦<VecSink as Sink>⟧.taken self ≡ Some result.items }
    {
        self.bytes
    }
}

impl Sink for VecSink {
    ghost use Rattle.std.specs.Prelude.{Some};

    ghost taken = { λ kept. Some kept.bytes.items };

    ghost has_failed = { λ kept. kept.failed };

    fn put(&mut self, bytes: &[u8]) -> Result<usize, IoFailed> {
        if self.failed || self.bytes.extend_from_slice(bytes).is_err() {
            self.failed = true;
            return Err(IoFailed);
        }
        Ok(bytes.len())
    }

    fn failed(&self) -> bool {
        self.failed
    }
}

/// Puts all of the bytes, by as many calls of `put` as it takes; no bytes take none. A fault comes
/// only where one of these calls failed, and then the sink has taken a front of the bytes, and not
/// all. A sink that had failed before takes none.
pub fn put_all<W: Sink>(bytes: &[u8], sink: &mut W) -> Result<(), WriteFault>
    ensures puts { Puts W.Sink sink.old sink.new bytes.now result }
    ensures short { OnErr result (TakesShort (W.taken sink.old) (W.taken sink.new) bytes.now) }
    ensures goes_on { OnOk result (0 < length bytes.now → W.has_failed sink.new ≡ false) }
    ensures nothing { bytes.now ≡ [] → sink.new ≡ sink.old }

    // A sink that had failed before.
    ensures for_good { IsTrue (W.has_failed sink.old) → 0 < length bytes.now → IsErr result }
    ensures kept { IsTrue (W.has_failed sink.old) → Keeps (W.taken sink.old) (W.taken sink.new) }
{
    let mut rest = bytes;
    while !rest.is_empty() {
        let Ok(taken) = sink.put(rest) else {
            return Err(WriteFault);
        };
        rest = &rest[taken..];
    }
    Ok(())
}

/// Puts a number.
pub fn put_number<N: Integer, W: Sink>(number: N, sink: &mut W) -> Result<(), WriteFault>
    ensures { Puts W.Sink sink.old sink.new (N.text number) result }
{
    put_all(Buffer::new().format(number).as_bytes(), sink)
}

/// Puts words with a space between each two, and the end of the line.
pub fn put_words<W: Sink>(words: &[&[u8]], sink: &mut W) -> Result<(), WriteFault>
    ensures { Puts W.Sink sink.old sink.new (text_line (map (λ w. w.now) words.now)) result }
{
    let mut separator: &[u8] = b"";
    for word in words {
        put_all(separator, sink)?;
        put_all(word, sink)?;
        separator = b" ";
    }
    put_all(b"\n", sink)
}
