//! Why a command stops before it is done, and the one function that reports it.

ghost use Rattle.std.specs.Prelude.{◌≡◌};
ghost use Rattle.burr_io.specs.Sink.{Puts};
ghost use Rattle.burr_judge.specs.Refusals.{refusal_text};
ghost use Rattle.burr_judge.specs.Stops.{Reports, noted};

use crate::fault::Fault;
use crate::refused::Refused;
use crate::status::Status;
use burr_asm::AsmFault;
use burr_container::ContainerFault;
use burr_io::{Sink, WriteFault, put_all};
use burr_runs::{AnswersFault, BenchFault};
use std::alloc::AllocError;

/// Why a command stops before it is done. Nothing is printed of it yet.
#[derive(Drop)]
pub enum Stop<'x> {
    /// An input is refused; notes for people follow the refusal's line, if there are any.
    Refused(Refused<'x>, Option<String>),
    /// A fault, which is reported on standard error.
    Fault(Fault<'x>),
}

impl<'x> Stop<'x> {
    /// Adds notes to a refusal that has none.
    pub fn with_notes(self, notes: String) -> Stop<'x>
        ensures { result ≡ noted self.entry notes }
    {
        match self {
            Stop::Refused(refused, before) => {
                Stop::Refused(refused, Some(before.unwrap_or(notes)))
            }
            Stop::Fault(fault) => Stop::Fault(fault),
        }
    }
}

/// Writes the line and the notes of a refusal, and returns `Refused`; nothing else is written. Returns the
/// status of a command that is done.
///
/// # Errors
/// The fault of a command that stopped by one, or that the sink failed.
pub fn report<'x, W: Sink>(
    done: Result<Status, Stop<'x>>,
    sink: &mut W,
) -> Result<Status, Fault<'x>>
    ensures { Reports W.Sink sink.old sink.new done.entry result }
{
    match done {
        Ok(status) => Ok(status),
        Err(Stop::Fault(fault)) => Err(fault),
        Err(Stop::Refused(refused, notes)) => {
            put_refusal(&refused, &notes, sink)?;
            Ok(Status::Refused)
        }
    }
}

/// Writes the line of a refusal, and its notes.
fn put_refusal<W: Sink>(
    refused: &Refused<'_>,
    notes: &Option<String>,
    sink: &mut W,
) -> Result<(), WriteFault>
    ensures { Puts W.Sink sink.old sink.new (refusal_text refused.now notes.now) result }
{
    match notes {
        None => refused.put(sink),
        Some(notes) => {
            refused.put(sink)?;
            put_all(notes.as_bytes(), sink)
        }
    }
}

impl<'x> From<Fault<'x>> for Stop<'x> {
    ghost use Rattle.std.specs.Prelude.{◌≡◌};
    ghost use Rattle.burr_judge.specs.declared.stop.Stop.TheVariants as stops;

    ghost from_gives = { λ fault stop. stop ≡ stops.Fault fault };

    fn from(fault: Fault<'x>) -> Self {
        Stop::Fault(fault)
    }
}

impl From<AllocError> for Stop<'_> {
    ghost use Rattle.std.specs.Prelude.{codes};
    ghost use Rattle.burr_judge.specs.Stops.{IsFault};

    ghost from_gives = { λ _ stop. IsFault (codes "no memory\n") stop };

    fn from(_e: AllocError) -> Self {
        Stop::Fault(Fault::Memory)
    }
}

impl From<WriteFault> for Stop<'_> {
    ghost use Rattle.burr_judge.specs.Faults.{output_failed};
    ghost use Rattle.burr_judge.specs.Stops.{IsFault};

    ghost from_gives = { λ _ stop. IsFault output_failed stop };

    fn from(_e: WriteFault) -> Self {
        Stop::Fault(Fault::Write("-"))
    }
}

/// A fault of a standard stream.
impl From<BenchFault> for Stop<'_> {
    ghost use Rattle.burr_judge.specs.Faults.{complaint_of};
    ghost use Rattle.burr_judge.specs.Stops.{IsFault};

    ghost from_gives = { λ fault stop. IsFault (complaint_of fault) stop };

    fn from(fault: BenchFault) -> Self {
        Stop::Fault(Fault::from(fault))
    }
}

impl<'x> From<Refused<'x>> for Stop<'x> {
    ghost use Rattle.std.specs.Prelude.{◌≡◌};
    ghost use Rattle.burr_judge.specs.Refusals.{refusal_line};
    ghost use Rattle.burr_judge.specs.Stops.{Refuses};

    ghost from_gives = { λ refused stop. Refuses (λ text. text ≡ refusal_line refused) stop };

    fn from(refused: Refused<'x>) -> Self {
        Stop::Refused(refused, None)
    }
}

impl From<ContainerFault> for Stop<'_> {
    ghost use Rattle.std.specs.Prelude.{◌≡◌};
    ghost use Rattle.burr_runs.specs.Rules.Refusals.{container_refusal};
    ghost use Rattle.burr_judge.specs.Stops.{Refuses};

    ghost from_gives = { λ fault stop. Refuses (λ text. text ≡ container_refusal fault) stop };

    fn from(fault: ContainerFault) -> Self {
        Stop::Refused(Refused::Container(fault), None)
    }
}

impl From<AsmFault> for Stop<'_> {
    ghost use Rattle.burr_judge.specs.Stops.{RefusesPlanText};

    ghost from_gives = { RefusesPlanText };

    fn from(fault: AsmFault) -> Self {
        match fault.code_and_line() {
            Some((code, line)) => Stop::Refused(Refused::Line(code, line), None),
            None => Stop::Fault(Fault::Memory),
        }
    }
}

impl From<AnswersFault> for Stop<'_> {
    ghost use Rattle.burr_judge.specs.Stops.{RefusesAnswers};

    ghost from_gives = { RefusesAnswers };

    fn from(fault: AnswersFault) -> Self {
        match fault {
            AnswersFault::Memory => Stop::Fault(Fault::Memory),
            AnswersFault::Line(line) => Stop::Refused(Refused::Line("answers", line), None),
        }
    }
}
