//! The records of a run's last steps.

ghost use Rattle.std.specs.Prelude.{◌≡◌, ◌∷◌, [], length, take, IfOk, MatchOption};
ghost use Rattle.burr_step.specs.declared.records.TheConstants.{MOST_RECORDS};

use burr_bench::Undo;
use circular_buffer::HeapCircularBuffer;
use std::alloc::{AllocError, Global};
use std::marker::Model;

/// The most records that are kept.
pub const MOST_RECORDS: usize = 256;

/// Records of steps, at most 256; where there would be one more the earliest goes.
#[derive(Drop)]
pub struct Records {
    ring: HeapCircularBuffer<Undo>,
}

impl Model for Records {
    ghost use Rattle.std.specs.Prelude.{◌≡◌, List, reverse};
    ghost use Rattle.burr_state.specs.Rules.Undo.{Undo as UndoOf};
    ghost use Rattle.burr_step.specs.declared.records.TheConstants.{MOST_RECORDS};

    ghost Value = { List UndoOf };

    ghost view = { λ r. reverse r.ring.items };

    ghost invariant = { λ r. r.ring.capacity ≡ MOST_RECORDS };
}

impl Records {
    /// No records, and room for all that may come.
    pub fn new(alloc: Global) -> Result<Records, AllocError>
        ensures { IfOk result (λ records. records ≡ []) }
    {
        let ring = HeapCircularBuffer::with_capacity(alloc, MOST_RECORDS)?;
        Ok(Records { ring })
    }

    /// How many there are.
    pub fn len(&self) -> usize
        ensures { result ≡ length self.now }
    {
        self.ring.len()
    }

    /// Keeps the record of one step more.
    pub fn push(&mut self, undo: Undo)
        ensures { self.new ≡ take MOST_RECORDS (undo ∷ self.old) }
    {
        let _ = self.ring.push_back(undo);
    }

    /// Gives back the record of the last step.
    pub fn pop(&mut self) -> Option<Undo>
        ensures { MatchOption result (self.old ≡ []) (λ undo. self.old ≡ undo ∷ self.new) }
    {
        self.ring.pop_back()
    }

    /// Drops all records.
    pub fn clear(&mut self)
        ensures { self.new ≡ [] }
    {
        self.ring.clear();
    }
}
