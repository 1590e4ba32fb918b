//! The steps that commands share: an assembly that is read, a plan that is judged, or one that is started.

ghost use Rattle.std.specs.Prelude.{◌≡◌, ◌≢◌, false, IfErr, IfOk};
ghost use Rattle.burr_assembly.specs.declared.fault.AssemblyFault.TheVariants.{Memory};
ghost use Rattle.burr_assembly.specs.Rules.Text.{IsText};
ghost use Rattle.burr_container.specs.Rules.Plans.{Plan};
ghost use Rattle.burr_container.specs.Views.Containers.{HasPlan, IsContainer};
ghost use Rattle.burr_runs.specs.Rules.Refusals.{assembly_refusal};
ghost use Rattle.burr_runs.specs.Rules.Verdicts.{IsPassedBy, IsVerdictLine, plan_refusal};
ghost use Rattle.burr_state.specs.Views.Benches.{IsAtStart};
ghost use Rattle.burr_state.specs.Views.Programs.{plan_program};
ghost use Rattle.burr_verify.specs.Rules.Accepting.{judged, IsAccepted};
ghost use Rattle.burr_judge.specs.Inputs.{IsFor};
ghost use Rattle.burr_judge.specs.Refusals.{refusal_line};
ghost use Rattle.burr_judge.specs.Stops.{Misfits, Refuses, RefusesText};

use crate::refused::Refused;
use crate::stop::Stop;
use burr_assembly::{Assembly, AssemblyFault, piece_name};
use burr_bench::Checked;
use burr_blocking::{Blocking, RowTables};
use burr_container::Container;
use burr_runs::PlanRefusal;
use burr_verify::{Accepted, Refusal, accept_counted};
use std::alloc::{AllocError, Global};

/// Reads an assembly's text.
pub fn read_assembly<'x>(alloc: Global, text: &[u8]) -> Result<Assembly, Stop<'x>>
    ensures ok { IfOk result (IsText text.now) }
    ensures err { IfErr result (Refuses (RefusesText text.now)) }
{
    match Assembly::read(alloc, text) {
        Ok(assembly) => Ok(assembly),
        Err(fault) => Err(Stop::from(refused_text(alloc, text, fault)?)),
    }
}

/// Reads an assembly's text, and makes the tables of its assembly, which they keep.
pub fn read_tables<'x>(alloc: Global, text: &[u8]) -> Result<RowTables<'static>, Stop<'x>>
    ensures ok { IfOk result (λ tables.
        IsText text.now (⟦<RowTables<'static> as Blocking>⟧.subject tables)) }
    ensures err { IfErr result (Refuses (RefusesText text.now)) }
{
    let assembly = read_assembly(alloc, text)?;
    Ok(RowTables::owning(alloc, assembly)?)
}

/// Returns the refusal of an assembly's text by this fault.
fn refused_text<'x>(
    alloc: Global,
    text: &[u8],
    fault: AssemblyFault,
) -> Result<Refused<'x>, AllocError>
    ensures refusal { IfOk result (λ refused.
        refusal_line refused ≡ assembly_refusal text.now fault) }
    ensures fault { IfOk result (λ _. fault ≢ Memory) }
{
    if let AssemblyFault::A8 {
        line,
        earlier,
        piece,
    } = fault
    {
        let earlier = Vec::from_slice(alloc, piece_name(text, earlier))?;
        let piece = Vec::from_slice(alloc, piece_name(text, piece))?;
        return Ok(Refused::Overlap {
            line,
            earlier,
            piece,
        });
    }
    let (code, line) = fault.code_and_line().ok_or(AllocError)?;
    Ok(Refused::Line(code, line))
}

/// Judges a container's plan for the assembly of these tables. Returns the accepted plan, and the number of
/// looks.
pub fn judge_plan<'p, 'c: 'p, 'y, B: Blocking>(
    container: &'p Container<'c>,
    tables: &'p B,
) -> Result<(Accepted<'p, 'c, B>, u64), Stop<'y>>
    requires plan { HasPlan container.now }
    ensures ok { IfOk result (λ counted.
        counted.0.judged ≡ judged container.entry.now (B.subject tables.entry.now)) }
    ensures accepted { IfOk result (λ counted. IsAccepted counted.0.judged) }
    ensures passed { IfOk result (λ counted.
        IsPassedBy container.entry.now (B.subject tables.entry.now) counted.1) }
    ensures err { IfErr result (Refuses
        (IsVerdictLine container.entry.now (B.subject tables.entry.now) false)) }
{
    match accept_counted(container, tables) {
        Ok(counted) => Ok(counted),
        Err(refusal) => Err(refuse_plan(refusal, tables.assembly())),
    }
}

/// Starts a container's plan on the bench, if it is for the assembly of these tables.
pub fn start_plan<'p, 'c: 'p, 'y, B: Blocking>(
    container: &Container<'c>,
    tables: &'p B,
) -> Result<Checked<'p, B>, Stop<'y>>
    ensures fits { IfOk result (λ _. IsFor container.entry.now (B.subject tables.entry.now)) }
    ensures assembly { IfOk result (λ bench. bench.assembly ≡ B.subject tables.entry.now) }
    ensures program { IfOk result (λ bench. (p : Plan) → IsContainer container.entry.now p
        → bench.program ≡ plan_program p) }
    ensures start { IfOk result IsAtStart }
    ensures err { IfErr result (Refuses (Misfits container.entry.now (B.subject tables.entry.now))) }
{
    match Checked::start(container, tables) {
        Ok(bench) => Ok(bench),
        Err(refusal) => Err(refuse_plan(refusal, tables.assembly())),
    }
}

/// Returns the refusal of a plan for this assembly.
fn refuse_plan<'y>(refusal: Refusal, assembly: &Assembly) -> Stop<'y>
    ensures { Refuses (λ text. text ≡ plan_refusal assembly.now refusal) result }
{
    Stop::from(Refused::Plan(PlanRefusal::new(refusal, assembly)))
}
