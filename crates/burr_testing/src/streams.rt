//! Streams that give and take little a call, and fail.

use std::alloc::Global;
use std::io::{self, ErrorKind, Read, Write};

/// A reader that gives at most `each` bytes a call. It may fail at one call alone, once it has
/// given a certain number of bytes; at later calls it gives the others, so that a caller that calls
/// it again after a failure is noticed.
#[derive(Drop)]
pub struct Portions<'a> {
    left: &'a [u8],
    each: usize,
    /// How many bytes are left where it fails, and how.
    failure: Option<(usize, ErrorKind)>,
    /// How often it was called.
    pub calls: usize,
    /// Whether it has told its end.
    pub has_ended: bool,
}

impl<'a> Portions<'a> {
    /// A reader that gives all bytes.
    pub fn new(bytes: &'a [u8], each: usize) -> Portions<'a> {
        Portions {
            left: bytes,
            each,
            failure: None,
            calls: 0,
            has_ended: false,
        }
    }

    /// A reader that fails where it has given `at` bytes.
    pub fn failing(bytes: &'a [u8], each: usize, at: usize, kind: ErrorKind) -> Portions<'a> {
        Portions {
            left: bytes,
            each,
            failure: Some((bytes.len().saturating_sub(at), kind)),
            calls: 0,
            has_ended: false,
        }
    }
}

impl Read for Portions<'_> {
    fn read(&mut self, buffer: &mut [u8]) -> io::Result<usize> {
        self.calls = self.calls.wrapping_add(1);
        let mut kept = 0;
        if let Some((rest, kind)) = self.failure {
            if self.left.len() <= rest {
                self.failure = None;
                return Err(io::Error::from(kind));
            }
            kept = rest;
        }
        let before = self.left.len().saturating_sub(kept);
        let count = before.min(self.each).min(buffer.len());
        let (portion, rest) = self.left.split_at(count);
        buffer[..count].copy_from_slice(portion);
        self.left = rest;
        self.has_ended = count == 0;
        Ok(count)
    }
}

/// A writer that takes a byte a call, save at one call alone, where it fails or takes none.
#[derive(Drop)]
pub struct Narrow {
    /// What it has taken.
    pub taken: Vec<u8>,
    /// How often it was called.
    pub calls: usize,
    /// The number of the call at which it takes none.
    pub refuses_at: usize,
    /// How it fails there; None where it only takes nothing.
    fault: Option<ErrorKind>,
}

impl Narrow {
    /// A writer that has taken nothing.
    pub fn new(alloc: Global, refuses_at: usize, fault: Option<ErrorKind>) -> Narrow {
        Narrow {
            taken: Vec::new(alloc),
            calls: 0,
            refuses_at,
            fault,
        }
    }
}

impl Write for Narrow {
    fn write(&mut self, bytes: &[u8]) -> io::Result<usize> {
        let call = self.calls;
        self.calls = call.wrapping_add(1);
        if call == self.refuses_at {
            return match self.fault {
                Some(kind) => Err(io::Error::from(kind)),
                None => Ok(0),
            };
        }
        match bytes.first() {
            Some(first) => {
                self.taken.push(*first)?;
                Ok(1)
            }
            None => Ok(0),
        }
    }

    fn flush(&mut self) -> io::Result<()> {
        Ok(())
    }
}

// Bytes as texts write them.

/// The bytes that hexadecimal digits name, between which blanks and line ends may stand; None where
/// they name none, or memory is wanting.
pub fn bytes_of(alloc: Global, digits: &str) -> Option<Vec<u8>> {
    let lines = digits.replace(alloc, " ", "").ok()?;
    let digits = lines.replace(alloc, "\n", "").ok()?;
    hex::decode(alloc, digits).ok()
}
