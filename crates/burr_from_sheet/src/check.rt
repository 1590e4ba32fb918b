//! The check of a drafted plan: it is judged, run, and what its run puts is compared with the sheet.

ghost use Rattle.std.specs.Prelude.{IfErr, IfOk, IsTrue, OnOk, IfSome, ◌≡◌};
ghost use Rattle.burr_container.specs.Laws.PlanBytes.{IsSpelled};
ghost use Rattle.burr_from_sheet.specs.Drafts.{IsOfDraft, IsSheetWith, RunsAs};
ghost use Rattle.burr_from_sheet.specs.SheetPlans.{IsPlanTextOf, IsPlanOfSheet, TellsFaultyLine, move_lines_of};

use crate::draft::{DraftedPlan, draft_of};
use crate::lines::{motions_of, move_lines};
use burr_assembly::Assembly;
use burr_blocking::Blocking;
use burr_container::{Container, a_container_is_of_one_plan, containers_are_unique, write};
use burr_io::VecSink;
use burr_plantext::list;
use burr_runs::{Outcome, run_plan};
use burr_verify::{Accepted, Refusal, accept};
use std::alloc::{AllocError, AllocFailed, Global};
use thiserror::Error;

/// The listing of the container of a drafted plan, where the plan is accepted and the sheet of its run
/// has these move lines.
#[inline(never)]
fn checked_text<B: Blocking>(
    alloc: Global,
    blocking: &B,
    lines: &[u8],
    draft: &DraftedPlan,
    bytes: &[u8],
) -> Result<Vec<u8>, SheetFault>
    requires { IsSpelled bytes.now }
    ensures ok { IfOk result (λ text. IsPlanTextOf (B.subject blocking.now) lines.now text.items) }
    ensures err { IfErr result IsOfDraft }
{
    containers_are_unique();
    match Container::parse(bytes) {
        Ok(container) => match text_if_accepted(alloc, &container, blocking, lines)? {
            Ok(text) => Ok(text),
            Err(refusal) => Err(refused(alloc, bytes, &container, draft, refusal)?),
        },
        Err(_) => unreachable!(),
    }
}

/// The listing of a container, where the sheet of its run has these move lines; or the refusal of
/// its plan.
#[inline(never)]
fn text_if_accepted<'x, B: Blocking>(
    alloc: Global,
    container: &'x Container<'_>,
    blocking: &'x B,
    lines: &[u8],
) -> Result<Result<Vec<u8>, Refusal>, SheetFault>
    ensures ok { IfOk result (λ judged. IfOk judged (λ text.
        IsPlanTextOf (B.subject blocking.entry.now) lines.now text.items)) }
    ensures err { IfErr result IsOfDraft }
{
    a_container_is_of_one_plan();
    match accept(container, blocking) {
        Ok(accepted) => {
            compare_run(alloc, &accepted, lines)?;
            Ok(Ok(list(alloc, container)?))
        }
        Err(refusal) => Ok(Err(refusal)),
    }
}

/// Runs an accepted plan without answers, and compares: all pieces are apart at its end, and its
/// sheet has these move lines.
#[inline(never)]
fn compare_run<B: Blocking>(
    alloc: Global,
    accepted: &Accepted<'_, '_, B>,
    lines: &[u8],
) -> Result<(), SheetFault>
    ensures ok { OnOk result (RunsAs accepted.now.judged lines.now) }
    ensures err { IfErr result IsOfDraft }
{
    let mut sheet = VecSink::new(alloc);
    let Ok(outcome) = run_plan(accepted, &[], &mut sheet) else {
        return Err(SheetFault::Memory);
    };
    let sheet = sheet.as_bytes();
    if outcome == Outcome::Apart && has_move_lines(sheet, lines) {
        return Ok(());
    }
    Err(SheetFault::Differs(first_difference(lines, sheet)))
}

/// Whether these are the move lines of a run's sheet: it begins with them, and its levels follow.
fn has_move_lines(sheet: &[u8], lines: &[u8]) -> bool
    ensures { IsTrue result → IsSheetWith lines.now sheet.now }
{
    sheet.starts_with(lines) && sheet[lines.len()..].starts_with(b"levels ")
}

/// The first line, counted from 1, in which a text differs from another one.
fn first_difference(text: &[u8], other: &[u8]) -> usize {
    let mut line = 1;
    for (place, byte) in text.iter().enumerate() {
        if other.get(place) != Some(byte) {
            return line;
        }
        if *byte == b'\n' {
            line += 1;
        }
    }
    line
}

/// The fault of a drafted plan that is refused.
fn refused(
    alloc: Global,
    bytes: &[u8],
    container: &Container<'_>,
    draft: &DraftedPlan,
    refusal: Refusal,
) -> Result<SheetFault, AllocError>
    ensures { IfOk result IsOfDraft }
{
    Ok(SheetFault::Refused(RefusedDraft {
        container: Vec::from_slice(alloc, bytes)?,
        text: list(alloc, container)?,
        line: draft.line_at(refusal.proc, refusal.pc),
        refusal,
    }))
}

// The plan of a sheet.

/// The text of a plan without loops and questions whose run has the move lines of a sheet: the lines
/// before its first line that begins `levels `, and all of it where there is no such line. The plan
/// is accepted for the assembly, and its run takes all pieces apart.
///
/// `Line` comes where the move lines are those of no motions, and `TooLong` where the code of their
/// plan has more than 61,425 bytes. `Refused` comes where the verifier refuses the plan, as where a
/// piece is in the way of a motion, or a piece is not apart at the end. `Memory` comes where a request
/// for memory was refused. `Differs` is for a plan whose run has other lines.
pub fn plan_of_sheet<B: Blocking>(
    alloc: Global,
    blocking: &B,
    sheet: &[u8],
) -> Result<Vec<u8>, SheetFault>
    ensures ok { IfOk result (λ text.
        IsPlanOfSheet (B.subject blocking.now) sheet.now text.items) }
    ensures line { IfErr result
        (TellsFaultyLine (B.subject blocking.now) (move_lines_of sheet.now)) }
{
    let assembly = blocking.assembly();
    let lines = move_lines(sheet);
    let motions = motions_of(alloc, assembly, lines)?;
    let draft = draft_of(alloc, assembly, &motions)?;
    let Some(container) = container_of(alloc, assembly, &draft)? else {
        // Nothing but the length of its code may keep the plan of an assembly from the format.
        return Err(SheetFault::TooLong(draft.line_at(0, u16::MAX)));
    };
    checked_text(alloc, blocking, lines, &draft, &container)
}

/// The container of a drafted plan. None where the plan isn't within the format.
fn container_of(
    alloc: Global,
    assembly: &Assembly,
    draft: &DraftedPlan,
) -> Result<Option<Vec<u8>>, AllocError>
    ensures { IfOk result (λ found. IfSome found (λ bytes. IsSpelled bytes.items)) }
{
    let plan = draft.plan(alloc, assembly)?;
    if !plan.fits() {
        return Ok(None);
    }
    Ok(Some(write(alloc, &plan)?))
}

// Why a sheet gives no plan.

/// Why a sheet gives no plan. Lines are those of the sheet, counted from 1.
#[derive(Debug, Drop, Error)]
pub enum SheetFault {
    /// The move lines up to this one are the lines of no motions, or of more than 1,000,000, and
    /// those before it are lines of motions.
    #[error("line {0}: no move line of this form may stand here")]
    Line(usize),
    /// With this line the code of the plan has more than 61,425 bytes: fifteen procedures of 4,095.
    #[error("line {0}: the plan is too long")]
    TooLong(usize),
    /// The verifier refuses the plan that makes these motions.
    #[error("the plan is refused")]
    Refused(RefusedDraft),
    /// The run of the plan puts other lines than the sheet, and this is the first of them.
    #[error("line {0}: the plan's run puts another line")]
    Differs(usize),
    /// A request for memory was refused.
    #[error("no memory")]
    Memory,
}

/// A plan that makes the motions of a sheet, and is refused.
#[derive(Debug, Drop)]
pub struct RefusedDraft {
    /// The container of the plan.
    pub container: Vec<u8>,
    /// The listing of that container.
    pub text: Vec<u8>,
    /// Why it is refused, and where in its code.
    pub refusal: Refusal,
    /// The line of the sheet that the instruction there is for, counted from 1.
    pub line: usize,
}

impl From<AllocError> for SheetFault {
    ghost use Rattle.burr_from_sheet.specs.declared.check.SheetFault.TheVariants.{Memory};

    ghost from_gives = { λ _ e. e ≡ Memory };

    fn from(_e: AllocError) -> SheetFault {
        SheetFault::Memory
    }
}

impl<T: Drop> From<AllocFailed<T>> for SheetFault {
    ghost use Rattle.burr_from_sheet.specs.declared.check.SheetFault.TheVariants.{Memory};

    ghost from_gives = { λ _ e. e ≡ Memory };

    fn from(_e: AllocFailed<T>) -> SheetFault {
        SheetFault::Memory
    }
}
