ghost use Rattle.std.specs.Prelude.{◌≤◌, length};
ghost use Rattle.burr_assembly.specs.Rules.Text.{IsAssembly};
ghost use Rattle.burr_container.specs.Rules.Plans.{Plan};
ghost use Rattle.burr_container.specs.Views.Containers.{IsContainer, HasPlan};
ghost use Rattle.burr_verify.specs.Laws.LookingLaws.{SomePassLooks, OnePassLooks, SomeLooking, OneLooking, LookingIsJudging, FewLooks};
ghost use Rattle.burr_verify.specs.Laws.VerifyLaws.{OnePass, PassIsCut, RefusalIsFirst, OneJudging, JudgingIsFraming, JudgingRefuses, FittingIsFromContainer};

use burr_assembly::Assembly;
use burr_container::Container;

/// Over code whose labels stand at rising places, a pass has exactly one judgement: nothing is
/// wrong exactly where the code can be cut with a state before each instruction, and a refusal
/// names the first check that fails.
pub fn a_pass_has_one_judgement()
    ensures one { OnePass }
    ensures cut { PassIsCut }
    ensures first { RefusalIsFirst }
{}

/// A plan whose labels stand at rising places of its codes has exactly one judgement: nothing is
/// wrong exactly where it is well framed, and a refusal names the first check that fails.
pub fn a_plan_is_judged_in_one_way()
    ensures one { OneJudging }
    ensures framed { JudgingIsFraming }
    ensures first { JudgingRefuses }
{}

/// A plan within the format has what the other laws ask of a plan: labels at rising places of its
/// codes, the first at 0, frames of eight slots whose forms are over their live ones, a main
/// without an exit frame, and a budget below 2^64 - 1.
pub fn a_fitting_plan_is_from_a_container()
    ensures { FittingIsFromContainer }
{}

/// Passes from one stage on have one number of looks.
pub fn a_pass_has_so_many_looks()
    ensures some { SomePassLooks }
    ensures one { OnePassLooks }
{}

/// A plan has one judgement with its looks, which are few.
pub fn a_plan_has_so_many_looks()
    ensures some { SomeLooking }
    ensures one { OneLooking }
    ensures judged { LookingIsJudging }
    ensures few { FewLooks }
{}

/// What a reference to a container holds has a plan, with a main procedure.
pub(crate) fn a_container_has_a_plan(container: &Container<'_>)
    ensures plan { HasPlan container.now }
    ensures main { 1 ≤ length container.now.procedures }
    ensures procedures { (p : Plan) → IsContainer container.now p → 1 ≤ length p.procedures }
{
    let _ = container.header();
    let _ = container.proc_count();
}

/// What a reference to an assembly holds is one, of 32 pieces at most.
pub(crate) fn an_assembly_has_few_pieces(assembly: &Assembly)
    ensures assembly { IsAssembly assembly.now }
    ensures few { length assembly.now.pieces ≤ 32 }
{
    let _ = assembly.piece_count();
}
