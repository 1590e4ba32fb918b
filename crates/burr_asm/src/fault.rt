ghost use Rattle.std.specs.Prelude.{◌≡◌};

use std::alloc::{AllocError, AllocFailed};
use thiserror::Error;

/// What is wrong with a plan text: its first faulty line, counted from 1, and on it the first of
/// its faults in the order P5, P1, P2, P3, P4. A fault of the end is at the line after the last.
/// Names that are unknown are looked for last, where all else is right.
#[derive(Clone, Copy, Debug, PartialEq, Eq, Error)]
pub enum AsmFault {
    #[error("line {line}: no line of this form may stand here, or the text ends too early")]
    P1 { line: usize },
    #[error("line {line}: the name is taken already, or nothing has it")]
    P2 { line: usize },
    #[error("line {line}: a number, a set or a form is out of its range, or not in rising order")]
    P3 { line: usize },
    #[error("line {line}: one more than a plan may have, or a label where none may stand")]
    P4 { line: usize },
    #[error("line {line}: here the first label of a procedure is missing, or the frame of a label")]
    P5 { line: usize },
    #[error("no memory")]
    Memory,
}

impl AsmFault {
    ghost use Rattle.std.specs.Prelude.{◌≢◌, MatchOption};
    ghost use Rattle.burr_asm.specs.declared.fault.AsmFault.TheVariants.{Memory};
    ghost use Rattle.burr_asm.specs.Rules.FaultNames.{fault_code, fault_line};

    /// What the fault is called, as `P2`, and its line, counted from 1. Want of memory is no fault of a
    /// text: of it None.
    pub fn code_and_line(self) -> Option<(&'static str, usize)>
        ensures { MatchOption result (self ≡ Memory) (λ found. (self ≢ Memory)
            × (found.0.now ≡ fault_code self) × (found.1 ≡ fault_line self)) }
    {
        match self {
            AsmFault::P1 { line } => Some(("P1", line)),
            AsmFault::P2 { line } => Some(("P2", line)),
            AsmFault::P3 { line } => Some(("P3", line)),
            AsmFault::P4 { line } => Some(("P4", line)),
            AsmFault::P5 { line } => Some(("P5", line)),
            AsmFault::Memory => None,
        }
    }
}

impl From<AllocError> for AsmFault {
    ghost use Rattle.burr_asm.specs.declared.fault.AsmFault.TheVariants.{Memory};

    ghost from_gives = { λ _ e. e ≡ Memory };

    fn from(_e: AllocError) -> AsmFault {
        AsmFault::Memory
    }
}

impl<T: Drop> From<AllocFailed<T>> for AsmFault {
    ghost use Rattle.burr_asm.specs.declared.fault.AsmFault.TheVariants.{Memory};

    ghost from_gives = { λ _ e. e ≡ Memory };

    fn from(_e: AllocFailed<T>) -> AsmFault {
        AsmFault::Memory
    }
}
