ghost use Rattle.burr_bench.specs.Soundness.Machine.{CallIsSafe, EachStateIsSafe, SomeSafeCall, NoTrapIsNext};
ghost use Rattle.burr_bench.specs.Soundness.Machine.{StepIsSafe, AsideIsSafe, StartIsSafe, CostBoundsSteps};
ghost use Rattle.burr_bench.specs.Soundness.Records.{StepIsRecorded, EachRecordUndoes};
ghost use Rattle.burr_bench.specs.Soundness.Laws.{VerifierIsSound, AcceptedHasRuns};

use burr_state::pieces_never_overlap;
use burr_verify::a_fitting_plan_is_from_a_container;

/// Each run of a plan that is well framed ends with every piece apart within the budget, or waits
/// for an answer before it: it meets no trap, and is not stopped. And it has runs, whatever the
/// answers.
pub fn a_well_framed_plan_runs_safely()
    ensures safe { VerifierIsSound }
    ensures some { AcceptedHasRuns }
{}

/// A bench that runs an accepted plan meets no trap, and stays one: before each of its calls the
/// run has ended well, or what the verifier knows of the next instruction holds, callers and costs
/// included.
pub fn an_accepted_bench_never_traps()
    ensures start { StartIsSafe }
    ensures call { CallIsSafe }
    ensures each { EachStateIsSafe }
    ensures some { SomeSafeCall }
    ensures next { NoTrapIsNext }
    ensures step { StepIsSafe }
    ensures aside { AsideIsSafe }
{
    a_fitting_plan_is_from_a_container();
    pieces_never_overlap();
}

/// A run of an accepted plan makes no more steps than the cost at main's entry frame, whatever is
/// answered.
pub fn a_run_makes_no_more_steps_than_it_costs()
    ensures { CostBoundsSteps }
{
    a_fitting_plan_is_from_a_container();
    pieces_never_overlap();
}

/// A bench that runs an accepted plan and makes a step has a record of it, and any record of it
/// takes it back.
pub fn an_accepted_step_is_recorded()
    ensures some { StepIsRecorded }
    ensures each { EachRecordUndoes }
{
    a_fitting_plan_is_from_a_container();
}
