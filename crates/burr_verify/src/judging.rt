//! The whole judgement of a plan.

ghost use Rattle.std.specs.Prelude.{◌≡◌, ◌≤◌, ◌*◌, ◌↔◌, IsOk, List, length};
ghost use Rattle.burr_voxels.specs.declared.cell.Cell.{Cell as CellOf};
ghost use Rattle.burr_assembly.specs.Rules.Text.{IsAssembly};
ghost use Rattle.burr_assembly.specs.Rules.Homes.{homes_of};
ghost use Rattle.burr_forms.specs.declared.limits.TheConstants.{MOST_POINTS};
ghost use Rattle.burr_container.specs.Rules.Plans.{Plan};
ghost use Rattle.burr_container.specs.Views.Containers.{IsContainer, HasPlan};
ghost use Rattle.burr_frames.specs.Rules.FramedPlans.{framed_plan};
ghost use Rattle.burr_verify.specs.Rules.Judging.{Judging, judging_frames, judging_start, passes};
ghost use Rattle.burr_verify.specs.Rules.Pass.{Passed};
ghost use Rattle.burr_verify.specs.Rules.PassLooks.{Looking, looking_code, code_size};
ghost use Rattle.burr_verify.specs.Rules.WellFramed.{IsWellFramed};
ghost use Rattle.burr_verify.specs.Views.Judgements.{judgement_of, AnswersPart};

use crate::forming::judge_frames;
use crate::laws::{a_container_has_a_plan, a_plan_has_so_many_looks, an_assembly_has_few_pieces};
use crate::passing::judge_code;
use crate::refusal::{Refusal, fits_assembly};
use burr_blocking::{Blocking, Looks};
use burr_container::Container;
use burr_frames::{Rule, State, meets_entry};

/// Judges a container's plan for the pieces of an assembly, without running anything: whether it is
/// for them, each frame by itself, the start against main's entry frame, and then the code of each
/// procedure, in one pass over code and frames. It takes no memory. A refusal names the first check
/// that fails.
pub fn verify<B: Blocking>(container: &Container<'_>, blocking: &B) -> Result<(), Refusal>
    ensures judged { (p : Plan) → IsContainer container.now p
        → Judging (B.subject blocking.now).name (homes_of (B.subject blocking.now))
        (framed_plan p) (judgement_of result) }
    ensures framed { (p : Plan) → IsContainer container.now p
        → IsOk result ↔ IsWellFramed (B.subject blocking.now).name
        (homes_of (B.subject blocking.now)) (framed_plan p) }
    // What references to a container and to an assembly hold.
    ensures known { HasPlan container.now × IsAssembly (B.subject blocking.now) }
{
    verify_counted(container, &mut Looks::new(blocking))
}

/// Judges as `verify` does, and leaves the number of its looks at the pieces: of each `step` and
/// `aside` that it comes to, one for each point and each pair of a gripped piece and one that is
/// left in the tray, in order, until one fails; none else. They are at most 4,096 times 256 for
/// each byte of the plan's code. No look was made before, the caller's condition.
pub fn verify_counted<B: Blocking>(
    container: &Container<'_>,
    looks: &mut Looks<'_, B>,
) -> Result<(), Refusal>
    requires none { looks.old.count ≡ 0 }
    ensures looked { (p : Plan) → IsContainer container.now p
        → Looking looks.old.assembly.name (homes_of looks.old.assembly) (framed_plan p)
        (judgement_of result) looks.new.count }
    ensures few { (p : Plan) → IsContainer container.now p
        → looks.new.count ≤ code_size (framed_plan p).procedures * (MOST_POINTS * 256) }
    ensures judged { (p : Plan) → IsContainer container.now p
        → Judging looks.old.assembly.name (homes_of looks.old.assembly) (framed_plan p)
        (judgement_of result) }
    ensures framed { (p : Plan) → IsContainer container.now p
        → IsOk result ↔ IsWellFramed looks.old.assembly.name (homes_of looks.old.assembly)
        (framed_plan p) }
    ensures same { looks.new.assembly ≡ looks.old.assembly }
    // What references to a container and to an assembly hold.
    ensures known { HasPlan container.now × IsAssembly looks.old.assembly }
{
    a_container_has_a_plan(container);
    an_assembly_has_few_pieces(looks.assembly());
    a_plan_has_so_many_looks();
    judge_plan(container, looks)
}

/// The checks of `verify`, in their order.
fn judge_plan<B: Blocking>(
    container: &Container<'_>,
    looks: &mut Looks<'_, B>,
) -> Result<(), Refusal>
    requires none { looks.old.count ≡ 0 }
    ensures looked { (p : Plan) → IsContainer container.now p
        → Looking looks.old.assembly.name (homes_of looks.old.assembly) (framed_plan p)
        (judgement_of result) looks.new.count }
    ensures same { looks.new.assembly ≡ looks.old.assembly }
{
    fits_assembly(container, looks.assembly())?;
    judge_all_frames(container)?;
    judge_start(container, looks.assembly().piece_count())?;
    judge_all_code(container, looks)
}

/// Judges the frames of each procedure.
#[inline(never)]
fn judge_all_frames(container: &Container<'_>) -> Result<(), Refusal>
    ensures { (p : Plan) → IsContainer container.now p
        → AnswersPart (judging_frames 0 (framed_plan p).procedures) result }
{
    for number in 0..container.proc_count() {
        judge_frames(container.procedure(number))?;
    }
    Ok(())
}

/// Judges the start, with this many pieces, all at home in tray 0, and nothing gripped, against
/// main's entry frame, whose cost may not be above the budget.
#[inline(never)]
fn judge_start(container: &Container<'_>, pieces: u8) -> Result<(), Refusal>
    requires { pieces ≤ 32 }
    ensures { (p : Plan) (homes : List (List CellOf)) → IsContainer container.now p
        → length homes ≡ pieces → AnswersPart (judging_start homes (framed_plan p)) result }
{
    a_container_has_a_plan(container);
    let main = container.procedure(0);
    if main.label_count() == 0 {
        return Err(Refusal::plain(0, 0, Rule::BadFrame));
    }
    let entry = main.frame(0);
    if meets_entry(&State::at_home(pieces), &entry).is_err() {
        return Err(Refusal::plain(0, 0, Rule::BadFrame));
    }
    if i64::from(container.header().budget) < entry.cost().constant {
        return Err(Refusal::plain(0, 0, Rule::BudgetTooLow));
    }
    Ok(())
}

/// Judges the code of each procedure. All frames hold by themselves, and no look was made before:
/// the caller's conditions.
#[inline(never)]
fn judge_all_code<B: Blocking>(
    container: &Container<'_>,
    looks: &mut Looks<'_, B>,
) -> Result<(), Refusal>
    requires none { looks.old.count ≡ 0 }
    requires framed { (p : Plan) → IsContainer container.now p
        → judging_frames 0 (framed_plan p).procedures passes Passed }
    ensures looked { (p : Plan) → IsContainer container.now p
        → looking_code (homes_of looks.old.assembly) (framed_plan p) 0 (framed_plan p).procedures
        (judgement_of result) looks.new.count }
    ensures same { looks.new.assembly ≡ looks.old.assembly }
{
    a_container_has_a_plan(container);
    for number in 0..container.proc_count() {
        judge_code(container.procedure(number), looks)?;
    }
    Ok(())
}
