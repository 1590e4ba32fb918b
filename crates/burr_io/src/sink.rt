ghost use Rattle.std.specs.Prelude.{◌≡◌, ◌≤◌, ◌<◌, ℕ, Bool, List, length, Option, is_err, IsErr, IsTrue, IfOk};
ghost use Rattle.std.specs.Io.KnownBytes.{WriteAppends};

use thiserror::Error;

/// Something that takes bytes, until it fails.
pub trait Sink {
    /// The bytes that it has taken, where the device tells them.
    ghost taken: { Self → Option (List ℕ) };

    /// Whether it has failed.
    ghost has_failed: { Self → Bool };

    /// Takes bytes from the start of the slice and tells how many: at least one, save of an empty
    /// slice. Where it fails it takes none, and after a failure every call fails.
    fn put(&mut self, bytes: &[u8]) -> Result<usize, IoFailed>
        ensures bound { IfOk result (λ n. n ≤ length bytes.now) }
        ensures some { IfOk result (λ n. 0 < length bytes.now → 0 < n) }
        ensures bytes { WriteAppends (taken self.old) (taken self.new) result bytes.now }
        ensures fails { has_failed self.new ≡ is_err result }
        ensures for_good { IsTrue (has_failed self.old) → IsErr result };

    /// Whether the sink has failed.
    fn failed(&self) -> bool
        ensures { result ≡ has_failed self.now };
}

/// A source or a sink has failed: no byte went in this call, and none will in any later one.
#[derive(Clone, Copy, Debug, PartialEq, Eq, Error)]
#[error("the stream has failed")]
pub struct IoFailed;

/// A text was not written whole, since its sink has failed.
#[derive(Clone, Copy, Debug, PartialEq, Eq, Error)]
#[error("the text was not written whole")]
pub struct WriteFault;
