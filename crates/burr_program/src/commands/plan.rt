ghost use Rattle.std.specs.Prelude.{◌∷◌, [], codes, IfErr, IfOk};
ghost use Rattle.burr_judge.specs.Stops.{Refuses};
ghost use Rattle.burr_program.specs.Commands.{PlanSheetCommand, PlanSheetDone, SilentResult};
ghost use Rattle.burr_program.specs.FileFaults.{AnyText, CannotRewrite};
ghost use Rattle.burr_program.specs.MakingEnds.{MakesPlanOf};

use crate::done::Done;
use crate::files::{SourceFile, check_out_not_input, read_file, write_file};
use crate::notes::{read_noted, reason_of_plan, refuse_line};
use burr_assembly::Assembly;
use burr_blocking::Blocking;
use burr_container::Container;
use burr_from_sheet::{LineFault, RefusedDraft, SheetFault, plan_of_sheet};
use burr_judge::{Refused, Status, Stop};
use burr_runs::PlanRefusal;
use burr_why::{PlanText, reason_of_line};
use std::alloc::{AllocError, Global};
use std::rt::Files;

/// Writes the text of a plan that makes a sheet's moves to OUT, which may be no input.
#[inline(never)]
pub fn plan<'a, F: Files + AllocGlobal>(
    files: &F,
    assembly: &'a str,
    sheet: &'a str,
    out: &'a str,
) -> Result<Done<'a>, Stop<'a>>
    ensures { SilentResult
        (PlanSheetDone assembly.entry.now sheet.entry.now out.entry.now) PlanSheetCommand
        (CannotRewrite (assembly.entry.now ∷ sheet.entry.now ∷ []) (codes "ASSEMBLY" ∷ codes "SHEET" ∷ [])
        out.entry.now) result }
{
    let inputs = [("ASSEMBLY", assembly), ("SHEET", sheet)];
    check_out_not_input(files, &inputs, out)?;
    let drawing = read_file(files, assembly)?;
    let source = read_file(files, sheet)?;
    let text = plan_text(files.alloc(), &drawing, &source)?;
    let written = write_file(files, out, text)?;
    Ok(Done {
        status: Status::Done,
        assembly: Some(drawing),
        source: Some(source),
        written: Some(written),
    })
}

/// Returns the text of a plan that makes a sheet's moves.
#[inline(never)]
fn plan_text<'y>(
    alloc: Global,
    drawing: &SourceFile<'_>,
    sheet: &SourceFile<'_>,
) -> Result<Vec<u8>, Stop<'y>>
    ensures ok { IfOk result (λ text.
        MakesPlanOf drawing.now.bytes.items sheet.now.bytes.items text.items) }
    ensures err { IfErr result (Refuses AnyText) }
{
    let tables = read_noted(alloc, drawing)?;
    match plan_of_sheet(alloc, &tables, sheet.bytes()) {
        Ok(text) => Ok(text),
        Err(fault) => Err(refuse_sheet(alloc, tables.assembly(), sheet, fault)?),
    }
}

/// Returns the refusal of a sheet that gives no plan.
fn refuse_sheet<'y>(
    alloc: Global,
    assembly: &Assembly,
    sheet: &SourceFile<'_>,
    fault: SheetFault,
) -> Result<Stop<'y>, AllocError>
    ensures { IfOk result (Refuses AnyText) }
{
    let (line, note) = match fault {
        SheetFault::Memory => return Err(AllocError),
        SheetFault::Refused(draft) => return refuse_draft(alloc, assembly, sheet, draft),
        SheetFault::Line(line) => {
            let fault = LineFault::of(assembly, sheet.bytes(), line);
            let note = format!(in alloc; "{fault}")?;
            return refuse_line(alloc, "sheet", sheet, line, &note);
        }
        SheetFault::TooLong(line) => (line, "with it the code has no room in 16 procedures"),
        SheetFault::Differs(line) => (line, "the run of the plan has another line here"),
    };
    refuse_line(alloc, "sheet", sheet, line, note)
}

/// Returns the refusal of a sheet's plan: the verdict, and notes with the line of the sheet and what was
/// compared in the plan text.
#[inline(never)]
fn refuse_draft<'y>(
    alloc: Global,
    assembly: &Assembly,
    sheet: &SourceFile<'_>,
    draft: RefusedDraft,
) -> Result<Stop<'y>, AllocError>
    ensures { IfOk result (Refuses AnyText) }
{
    let RefusedDraft {
        line,
        container,
        text,
        refusal,
    } = draft;
    let mut notes = reason_of_line(alloc, sheet.name(), sheet.bytes(), line)?;
    let container = match Container::parse(&container) {
        Ok(container) => container,
        Err(fault) => return Ok(Stop::Refused(Refused::Container(fault), Some(notes))),
    };
    let plan = PlanText {
        file: "draft",
        text: &text,
        container: &container,
        assembly,
    };
    notes.push_str(&reason_of_plan(alloc, plan, &refusal)?)?;
    Ok(Stop::Refused(
        Refused::Plan(PlanRefusal::new(refusal, assembly)),
        Some(notes),
    ))
}
