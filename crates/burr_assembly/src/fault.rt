ghost use Rattle.std.specs.Prelude.{◌≡◌};

use std::alloc::{AllocError, AllocFailed};
use thiserror::Error;

/// What is wrong with an assembly text: its first faulty line, counted from 1, and on it the first
/// of its faults in the order A1, A7, A2, A3, A6, A4, A5, A8. A fault of the text's end is at the
/// line after the last.
#[derive(Clone, Copy, Debug, PartialEq, Eq, Error)]
pub enum AssemblyFault {
    #[error("line {line}: no line of this form may stand here, or the text ends too early")]
    A1 { line: usize },
    #[error("line {line}: the name is badly formed, or taken already")]
    A2 { line: usize },
    #[error("line {line}: the drawing is too large, uneven, or not of 1 to 512 cells")]
    A3 { line: usize },
    #[error("line {line}: the orientation is none of the 24")]
    A4 { line: usize },
    #[error("line {line}: a coordinate is outside -64..64")]
    A5 { line: usize },
    #[error("line {line}: there is no shape of this name")]
    A6 { line: usize },
    #[error("line {line}: there are more than 32 shapes or pieces, or the text ends with fewer than 2 pieces")]
    A7 { line: usize },
    /// The piece shares a cell with an earlier one; both by their numbers from 0, the earlier one
    /// the lowest with which it does.
    #[error("line {line}: piece {piece} shares a cell with piece {earlier} (numbered from 0)")]
    A8 { line: usize, earlier: u8, piece: u8 },
    #[error("no memory")]
    Memory,
}

impl AssemblyFault {
    ghost use Rattle.std.specs.Prelude.{◌≢◌, MatchOption};
    ghost use Rattle.burr_assembly.specs.declared.fault.AssemblyFault.TheVariants.{Memory};
    ghost use Rattle.burr_assembly.specs.Rules.FaultNames.{fault_code, fault_line};

    /// What the fault is called, as `A4`, and its line, counted from 1. Want of memory is no fault of a
    /// text: of it None.
    pub fn code_and_line(self) -> Option<(&'static str, usize)>
        ensures { MatchOption result (self ≡ Memory) (λ found. (self ≢ Memory)
            × (found.0.now ≡ fault_code self) × (found.1 ≡ fault_line self)) }
    {
        match self {
            AssemblyFault::A1 { line } => Some(("A1", line)),
            AssemblyFault::A2 { line } => Some(("A2", line)),
            AssemblyFault::A3 { line } => Some(("A3", line)),
            AssemblyFault::A4 { line } => Some(("A4", line)),
            AssemblyFault::A5 { line } => Some(("A5", line)),
            AssemblyFault::A6 { line } => Some(("A6", line)),
            AssemblyFault::A7 { line } => Some(("A7", line)),
            AssemblyFault::A8 { line, .. } => Some(("A8", line)),
            AssemblyFault::Memory => None,
        }
    }
}

impl From<AllocError> for AssemblyFault {
    ghost use Rattle.burr_assembly.specs.declared.fault.AssemblyFault.TheVariants.{Memory};

    ghost from_gives = { λ _ e. e ≡ Memory };

    fn from(_e: AllocError) -> AssemblyFault {
        AssemblyFault::Memory
    }
}

impl<T: Drop> From<AllocFailed<T>> for AssemblyFault {
    ghost use Rattle.burr_assembly.specs.declared.fault.AssemblyFault.TheVariants.{Memory};

    ghost from_gives = { λ _ e. e ≡ Memory };

    fn from(_e: AllocFailed<T>) -> AssemblyFault {
        AssemblyFault::Memory
    }
}
