ghost use Rattle.std.specs.Prelude.{◌≡◌, ◌≤◌, ℕ, Bool, List, length, Option, is_err, IsErr, IsTrue, IfOk};
ghost use Rattle.std.specs.Io.KnownBytes.{ReadConsumes};

use crate::sink::IoFailed;
use std::io::Read;

/// Any reader as a source: an error of the reader is the source's failure.
#[derive(Debug, Drop)]
pub struct Reading<R> {
    reader: R,
    failed: bool,
}

impl<R: Read> Reading<R> {
    ghost use Rattle.std.specs.Prelude.{◌≡◌, false};

    /// A source over a reader, which it keeps.
    pub fn new(reader: R) -> Reading<R>
        ensures left { ⟦<Reading<R> as Source>⟧.left result ≡ R.remaining reader }
        ensures fresh { ⟦<Reading<R> as Source>⟧.has_failed result ≡ false }
    {
        Reading {
            reader,
            failed: false,
        }
    }
}

impl<R: Read> Source for Reading<R> {
    ghost use Rattle.std.specs.Prelude.{◌≡◌, ◌≤◌, length, is_err, IsErr, IsTrue, IfOk};
    ghost use Rattle.std.specs.Io.KnownBytes.{ReadConsumes};

    ghost left = { λ s. R.remaining s.reader };

    ghost has_failed = { λ s. s.failed };

    // The clauses of the trait, and that a source that has failed leaves its reader alone.
    fn pull(&mut self, buffer: &mut [u8]) -> Result<usize, IoFailed>
        ensures bound { IfOk result (λ n. n ≤ length buffer.new) }
        ensures bytes { let left = ⟦<Reading<R> as Source>⟧.left in
            ReadConsumes (left self.old) (left self.new) result buffer.new }
        ensures fails { ⟦<Reading<R> as Source>⟧.has_failed self.new ≡ is_err result }
        ensures for_good { IsTrue (⟦<Reading<R> as Source>⟧.has_failed self.old) → IsErr result }
        ensures stays { IsTrue (⟦<Reading<R> as Source>⟧.has_failed self.old)
            → self.new ≡ self.old }
        ensures untouched { IsTrue (⟦<Reading<R> as Source>⟧.has_failed self.old)
            → buffer.new ≡ buffer.old }
    {
        if self.failed {
            return Err(IoFailed);
        }
        match self.reader.read(buffer) {
            Ok(count) => Ok(count),
            Err(_) => {
                self.failed = true;
                Err(IoFailed)
            }
        }
    }

    fn failed(&self) -> bool {
        self.failed
    }
}

/// Something that gives bytes until its end, or until it fails.
pub trait Source {
    /// The bytes that it will give from here on, where the device tells them.
    ghost left: { Self → Option (List ℕ) };

    /// Whether it has failed.
    ghost has_failed: { Self → Bool };

    /// Moves bytes to the start of the buffer and tells how many: at least one, save at the
    /// source's end or where the buffer is empty. Where it fails it gives none, and after a failure
    /// every call fails. What the buffer holds past the bytes given is left open.
    fn pull(&mut self, buffer: &mut [u8]) -> Result<usize, IoFailed>
        ensures bound { IfOk result (λ n. n ≤ length buffer.new) }
        ensures bytes { ReadConsumes (left self.old) (left self.new) result buffer.new }
        ensures fails { has_failed self.new ≡ is_err result }
        ensures for_good { IsTrue (has_failed self.old) → IsErr result };

    /// Whether the source has failed.
    fn failed(&self) -> bool
        ensures { result ≡ has_failed self.now };
}
