ghost use Rattle.std.specs.Prelude.{◌≡◌, ◌≢◌, ◌≤◌, ◌<◌, ℕ, length, take, drop, OnOk, OnErr, Contains, MatchOption, slice_index};
ghost use Rattle.burr_io.specs.LineWriter.{GoesOf, Flushes, FlushesFront, FlushesWhole, FlushesLess};

use crate::sink::{IoFailed, Sink, WriteFault};
use arrayvec::ArrayVec;
use std::marker::Model;

/// A sink over a sink that hands on whole lines. It holds back up to N bytes, in a buffer of its own
/// and not in memory that it asks for. Where more come, the lines that are whole by then are handed
/// on, so that the sink below takes them by one call where it can; a line longer than N bytes goes in
/// parts. `flush` hands on the rest.
#[derive(Drop)]
pub struct LineWriter<W, const N: usize> {
    sink: W,
    held: ArrayVec<u8, N>,
}

impl<W, const N: usize> Model for LineWriter<W, N> {
    ghost use Rattle.std.specs.Prelude.{◌<◌, ◌≤◌, length};
    ghost use Rattle.burr_io.specs.LineWriter.{Lines};

    ghost Value = { Lines W };

    ghost view = { λ s. record { sink = s.sink; held = s.held.items } };

    ghost invariant = { λ s. 0 < N };
}

impl<W: Sink, const N: usize> LineWriter<W, N> {
    ghost use Rattle.std.specs.Prelude.{◌≡◌, ◌<◌, [], IsErr, IsTrue, OnOk};
    ghost use Rattle.burr_io.specs.Sink.{Puts};

    /// A sink over this one, which holds back nothing yet.
    pub fn new(sink: W) -> LineWriter<W, N>
        requires { 0 < N }
        ensures sink { result.sink ≡ sink }
        ensures held { result.held ≡ [] }
    {
        LineWriter {
            sink,
            held: ArrayVec::new(),
        }
    }

    /// The sink below; what is held back is lost.
    pub fn into_sink(self) -> W
        ensures { result ≡ self.sink }
    {
        self.sink
    }

    /// Hands on all that is held back. A fault comes only where the sink below has failed, and then it
    /// has taken a front of that, and the rest is still held back; where it had failed before, nothing
    /// changes.
    pub fn flush(&mut self) -> Result<(), WriteFault>
        ensures puts { Puts W.Sink self.old.sink self.new.sink self.old.held result }
        ensures nothing { OnOk result (self.new.held ≡ []) }
        ensures kept { FlushesFront W.Sink self.old self.new }
        ensures untouched { IsTrue (W.has_failed self.old.sink) → self.new ≡ self.old }
        ensures for_good { IsTrue (W.has_failed self.old.sink) → IsErr result }
    {
        if self.sink.failed() {
            return Err(WriteFault);
        }
        let count = self.held.len();
        match flush_front(&mut self.held, count, &mut self.sink) {
            Ok(()) => Ok(()),
            Err(IoFailed) => Err(WriteFault),
        }
    }
}

impl<W: Sink, const N: usize> Sink for LineWriter<W, N> {
    ghost use Rattle.std.specs.Prelude.{◌≡◌, ◌≤◌, ◌<◌, length, take, is_err, IsErr, IsTrue, IfOk, OnErr};
    ghost use Rattle.std.specs.Io.KnownBytes.{WriteAppends, append_known};
    ghost use Rattle.burr_io.specs.Sink.{TakesFront};
    ghost use Rattle.burr_io.specs.LineWriter.{FlushesLines};

    // What it holds back has been put too.
    ghost taken = { λ s. append_known (W.taken s.sink) s.held };

    ghost has_failed = { λ s. W.has_failed s.sink };

    // The clauses of the trait, and what the sink below takes: whole lines of a full buffer, or none;
    // where it fails, a front of what was held back.
    fn put(&mut self, bytes: &[u8]) -> Result<usize, IoFailed>
        ensures bound { IfOk result (λ n. n ≤ length bytes.now) }
        ensures some { IfOk result (λ n. 0 < length bytes.now → 0 < n) }
        ensures bytes { let taken = ⟦<LineWriter<W, N> as Sink>⟧.taken in
            WriteAppends (taken self.old) (taken self.new) result bytes.now }
        ensures fails { ⟦<LineWriter<W, N> as Sink>⟧.has_failed self.new ≡ is_err result }
        ensures for_good { IsTrue (⟦<LineWriter<W, N> as Sink>⟧.has_failed self.old)
            → IsErr result }
        ensures lines { IfOk result (λ n.
            FlushesLines N W.Sink self.old self.new (take n bytes.now)) }
        ensures front { OnErr result
            (TakesFront (W.taken self.old.sink) (W.taken self.new.sink) self.old.held) }
    {
        if self.sink.failed() {
            return Err(IoFailed);
        }
        if self.held.is_full() {
            flush_lines(&mut self.held, &mut self.sink)?;
        }
        let count = self.held.remaining_capacity().min(bytes.len());
        match self.held.try_extend_from_slice(&bytes[..count]) {
            Ok(()) => Ok(count),
            Err(_) => unreachable!(),
        }
    }

    fn failed(&self) -> bool {
        self.sink.failed()
    }
}

/// Hands on what goes of a full buffer.
fn flush_lines<W: Sink, const N: usize>(
    held: &mut ArrayVec<u8, N>,
    sink: &mut W,
) -> Result<(), IoFailed>
    requires { 0 < length held.old.items }
    ensures ok { OnOk result (FlushesWhole W.Sink sink.old sink.new held.old.items held.new.items) }
    ensures err { OnErr result (FlushesLess W.Sink sink.old sink.new
        (length held.old.items) held.old.items held.new.items) }
{
    let count = whole_lines_len(held.as_slice());
    flush_front(held, count, sink)
}

/// How many bytes go of a full buffer: its whole lines, or all of it where no line ends in it.
fn whole_lines_len(full: &[u8]) -> usize
    requires { 0 < length full.now }
    ensures goes { GoesOf full.now (take result full.now) (drop result full.now) }
    ensures some { 0 < result }
    ensures all { result ≤ length full.now }
{
    match last_line_end(full) {
        Some(end) => end + 1,
        None => full.len(),
    }
}

/// Where the last line feed stands; None where there is no line feed.
pub fn last_line_end(bytes: &[u8]) -> Option<usize>
    ensures { MatchOption result
        (¬ Contains bytes.now 10)
        (λ i. (i < length bytes.now) × (slice_index bytes.now i ≡ 10)
        × ((k : ℕ) → i < k → k < length bytes.now → slice_index bytes.now k ≢ 10)) }
{
    bytes.iter().rposition(|byte| *byte == b'\n')
}

/// Hands on the first `count` bytes of a buffer, by as many calls as it takes.
fn flush_front<W: Sink, const N: usize>(
    held: &mut ArrayVec<u8, N>,
    count: usize,
    sink: &mut W,
) -> Result<(), IoFailed>
    requires { count ≤ length held.old.items }
    ensures ok { OnOk result
        (Flushes W.Sink sink.old sink.new count held.old.items held.new.items) }
    ensures err { OnErr result
        (FlushesLess W.Sink sink.old sink.new count held.old.items held.new.items) }
{
    let mut left = count;
    while left > 0 {
        let taken = sink.put(&held[..left])?;
        drop_front(held, taken);
        left -= taken;
    }
    Ok(())
}

/// Drops the first `count` bytes of a buffer.
fn drop_front<const N: usize>(held: &mut ArrayVec<u8, N>, count: usize)
    requires { count ≤ length held.old.items }
    ensures { held.new.items ≡ drop count held.old.items }
{
    let rest = held.len() - count;
    held.as_mut_slice().copy_within(count.., 0);
    held.truncate(rest);
}
