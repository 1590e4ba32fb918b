ghost use Rattle.burr_judge.specs.PlanEnds.{never};
ghost use Rattle.burr_program.specs.Commands.{CommandResult, ExplainDone};
ghost use Rattle.burr_program.specs.ExplainEnds.{CannotExplain, ExplainEnds};

use crate::done::Done;
use burr_explain::{explanation_of, put_explanation};
use burr_io::Sink;
use burr_judge::{Fault, Status, Stop};

/// Prints what a word or a line of output means.
///
/// # Errors
/// `Unknown` if nothing is explained under it.
pub fn explain<'a, W: Sink>(line: &'a str, sink: &mut W) -> Result<Done<'a>, Stop<'a>>
    ensures { CommandResult W.Sink sink.old sink.new (ExplainDone line.entry.now)
        (ExplainEnds line.entry.now) (CannotExplain line.entry.now) never result }
{
    match explanation_of(line.as_bytes()) {
        Some(known) => {
            put_explanation(known, sink)?;
            Ok(Done {
                status: Status::Done,
                assembly: None,
                source: None,
                written: None,
            })
        }
        None => Err(Stop::Fault(Fault::Unknown(line))),
    }
}
