ghost use Rattle.std.specs.Prelude.{◌≡◌, ◌↔◌, IsOk, OnOk, IfErr, length};
ghost use Rattle.burr_container.specs.Rules.Plans.{Plan};
ghost use Rattle.burr_container.specs.Views.Containers.{IsContainer};
ghost use Rattle.burr_frames.specs.Views.Breaks.{broken_of};
ghost use Rattle.burr_verify.specs.Rules.Pass.{Refuses, broken as broken_in};
ghost use Rattle.burr_verify.specs.Views.Refusals.{plain_refusal, another_assembly};
ghost use Rattle.burr_verify.specs.Views.Judgements.{failed_check};
ghost use Rattle.burr_verify.specs.Rules.Fitting.{FitsAssembly};

use burr_assembly::Assembly;
use burr_container::Container;
use burr_forms::Point;
use burr_frames::{Break, Rule};
use thiserror::Error;

/// Why a plan is refused: a rule that is broken, and where.
#[derive(Debug, PartialEq, Eq, Drop, Error)]
#[error("{rule} is broken in procedure {proc} at {pc}")]
pub struct Refusal {
    /// The procedure; main is 0.
    pub proc: u8,
    /// The position in the procedure's code.
    pub pc: u16,
    /// The rule.
    pub rule: Rule,
    /// Of V15 and V16, the two pieces.
    pub pieces: Option<(u8, u8)>,
    /// Of a rule that is tested at points, the first one at which it fails.
    pub point: Option<Point>,
}

impl Refusal {
    /// The refusal by a rule at a place, which names no pieces and no point.
    pub(crate) fn plain(proc: u8, pc: u16, rule: Rule) -> Refusal
        ensures { result ≡ plain_refusal proc pc rule }
    {
        Refusal {
            proc,
            pc,
            rule,
            pieces: None,
            point: None,
        }
    }

    /// The refusal by a rule that is broken at a place.
    pub(crate) fn of(proc: u8, pc: u16, broken: Break) -> Refusal
        ensures { Refuses (failed_check result) ≡ broken_in proc pc (broken_of broken) }
    {
        Refusal {
            proc,
            pc,
            rule: broken.rule,
            pieces: broken.pieces,
            point: broken.point,
        }
    }
}

// Whether a plan is for an assembly.

/// Whether the container's plan is for the assembly, by its name and number of pieces. A container
/// that was parsed has a plan.
pub fn fits_assembly(container: &Container<'_>, assembly: &Assembly) -> Result<(), Refusal>
    ensures fits { (p : Plan) → IsContainer container.now p
        → (IsOk result ↔ FitsAssembly p assembly.now) }
    // For callers that index pieces by what the container holds and have no plan at hand.
    ensures pieces { OnOk result (container.now.header.pieces ≡ length assembly.now.pieces) }
    ensures refusal { IfErr result (λ refusal. refusal ≡ another_assembly) }
{
    let header = container.header();
    if header.name == assembly.name().as_bytes() && header.pieces == assembly.piece_count() {
        Ok(())
    } else {
        Err(Refusal::plain(0, 0, Rule::OtherAssembly))
    }
}
