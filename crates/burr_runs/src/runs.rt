ghost use Rattle.std.specs.Prelude.{◌≡◌, ◌≤◌, [], false, length, IfOk, OnErr, OnOk, ◌↔◌, IsTrue, ◌≢◌};
ghost use Rattle.burr_assembly.specs.Rules.Text.{IsAssembly};
ghost use Rattle.burr_code.specs.declared.limits.TheConstants.{MOST_BUDGET, MOST_CODE};
ghost use Rattle.burr_state.specs.Rules.Bench.{bare_program};
ghost use Rattle.burr_state.specs.Views.Benches.{IsAtStart, Benched, setup_of, motion_in, GoesOn, IsSameRun};
ghost use Rattle.burr_runs.specs.Rules.Output.{outcome_of};
ghost use Rattle.burr_runs.specs.Views.Running.{PutsSheet, FailsInSheet, FailsInRun, IsInStep, ClosesPart, run_state, TurnIs, AnswerIs};
ghost use Rattle.burr_runs.specs.Views.AfterRuns.{IsAtRunEnd, IsInRun, TurnStands};
ghost use Rattle.burr_state.specs.declared.effect.Mode.TheVariants.{Ended, Running};
ghost use Rattle.burr_state.specs.Rules.Step.{Called, NextIs};
ghost use Rattle.burr_state.specs.Rules.Next.{Asks};

use crate::text_runs::Outcome;
use burr_assembly::Assembly;
use burr_bench::{Checked, Closing, Machine, Progress, Trap};
use burr_blocking::Blocking;
use burr_io::{Sink, WriteFault};
use burr_sheet::Sheet;
use burr_state::{BenchState, Mode};
use std::ops::ControlFlow;

/// Runs bare code on the bench, without answers, and writes the run's sheet.
pub fn run_bare<B: Blocking, W: Sink>(
    blocking: &B,
    code: &[u8],
    sink: &mut W,
) -> Result<Outcome, WriteFault>
    requires { length code.now ≤ MOST_CODE }
    ensures ok { IfOk result (λ outcome. PutsSheet W.Sink sink.old sink.new
        (B.subject blocking.now) (bare_program code.now) [] outcome) }
    ensures err { OnErr result (FailsInSheet W.Sink sink.old sink.new
        (B.subject blocking.now) (bare_program code.now) []) }
{
    try_plan(&mut Checked::bare(code, blocking), &[], sink)
}

/// Runs the program of a bench at its start, with these answers and within the program's budget, and
/// writes the run's sheet. Then the bench stands at the run's last state, and after a fault at some
/// state of that run.
pub fn try_plan<B: Blocking, W: Sink>(
    bench: &mut Checked<B>,
    answers: &[i32],
    sink: &mut W,
) -> Result<Outcome, WriteFault>
    requires { IsAtStart bench.old }
    ensures ok { IfOk result (λ outcome. PutsSheet W.Sink sink.old sink.new
        bench.old.assembly bench.old.program answers.now outcome) }
    ensures err { OnErr result (FailsInSheet W.Sink sink.old sink.new
        bench.old.assembly bench.old.program answers.now) }
    ensures end { IfOk result (IsAtRunEnd bench.old answers.now bench.new) }
    ensures under_way { OnErr result (IsInRun bench.old answers.now bench.new) }
{
    try_observed(bench, answers, &mut (), sink)
}

/// Does the same while an observer looks on.
pub fn try_observed<B: Blocking, O: Observer, W: Sink>(
    bench: &mut Checked<B>,
    answers: &[i32],
    observer: &mut O,
    sink: &mut W,
) -> Result<Outcome, WriteFault>
    requires { IsAtStart bench.old }
    ensures ok { IfOk result (λ outcome. PutsSheet W.Sink sink.old sink.new
        bench.old.assembly bench.old.program answers.now outcome) }
    ensures err { OnErr result (FailsInSheet W.Sink sink.old sink.new
        bench.old.assembly bench.old.program answers.now) }
    ensures end { IfOk result (IsAtRunEnd bench.old answers.now bench.new) }
    ensures under_way { OnErr result (IsInRun bench.old answers.now bench.new) }
{
    let (assembly, budget) = (bench.assembly(), bench.budget());
    run(bench, assembly, budget, answers, observer, sink)
}

/// Runs the program of a bench at its start, with these answers and within the program's budget, and
/// writes the run's sheet, while an observer looks on.
pub fn run<'a, R: Runner<'a>, O: Observer, W: Sink>(
    runner: &mut R,
    assembly: &Assembly,
    budget: u32,
    answers: &[i32],
    observer: &mut O,
    sink: &mut W,
) -> Result<Outcome, WriteFault>
    requires start { IsAtStart (R.benched runner.old) }
    requires assembly { assembly.now ≡ (R.benched runner.old).assembly }
    requires whole { IsAssembly (R.benched runner.old).assembly }
    requires budget { budget ≡ (R.benched runner.old).program.budget }
    requires few { budget ≤ MOST_BUDGET }
    ensures ok { IfOk result (λ outcome. PutsSheet W.Sink sink.old sink.new
        (R.benched runner.old).assembly (R.benched runner.old).program answers.now outcome) }
    ensures err { OnErr result (FailsInSheet W.Sink sink.old sink.new
        (R.benched runner.old).assembly (R.benched runner.old).program answers.now) }
    ensures end { IfOk result
        (IsAtRunEnd (R.benched runner.old) answers.now (R.benched runner.new)) }
    ensures under_way { OnErr result
        (IsInRun (R.benched runner.old) answers.now (R.benched runner.new)) }
{
    let mut sheet = Sheet::new(assembly);
    let closing = run_to_close(
        runner,
        u64::from(budget),
        answers,
        observer,
        &mut sheet,
        sink,
    )?;
    sheet.close(closing, runner.state().steps(), sink)?;
    Ok(outcome(closing))
}

/// The outcome of a run that closed so.
fn outcome(closing: Closing) -> Outcome
    ensures { result ≡ outcome_of closing }
{
    match closing {
        Closing::Apart => Outcome::Apart,
        Closing::Waiting(..) => Outcome::Waiting,
        Closing::Trapped(..) => Outcome::Trapped,
        Closing::Stopped => Outcome::Stopped,
    }
}

/// Takes the bench's steps to where the run closes, and puts what its motions close.
fn run_to_close<'a, R: Runner<'a>, O: Observer, W: Sink>(
    runner: &mut R,
    budget: u64,
    answers: &[i32],
    observer: &mut O,
    sheet: &mut Sheet,
    sink: &mut W,
) -> Result<Closing, WriteFault>
    requires in_step { IsInStep (R.benched runner.old) sheet.old }
    requires budget { budget ≡ (R.benched runner.old).program.budget }
    ensures ok { IfOk result (λ closing. ClosesPart W.Sink sink.old sink.new
        (run_state (R.benched runner.old) answers.now sheet.old)
        (run_state (R.benched runner.new) [] sheet.new) closing) }
    ensures unfailed { OnOk result (sheet.new.failed ≡ false) }
    ensures err { OnErr result (FailsInRun W.Sink sink.old sink.new
        (run_state (R.benched runner.old) answers.now sheet.old)) }
    ensures end { IfOk result (λ closing.
        IsAtRunEnd (R.benched runner.old) answers.now (R.benched runner.new) (outcome_of closing)) }
    ensures under_way { OnErr result
        (IsInRun (R.benched runner.old) answers.now (R.benched runner.new)) }
{
    let mut answers = answers;
    loop {
        observer.observe(runner.state(), answers);
        if runner.state().mode() == Mode::Ended {
            return Ok(Closing::Apart);
        }
        if runner.state().steps() == budget {
            return Ok(Closing::Stopped);
        }
        match take_turn(runner, answers, sheet, sink)? {
            ControlFlow::Continue(left) => answers = left,
            ControlFlow::Break(closing) => return Ok(closing),
        }
    }
}

/// Who looks on while a bench runs.
pub trait Observer {
    /// Sees where the run stands, and the answers that are left: before its first turn, and after each.
    fn observe(&mut self, state: &BenchState, answers: &[i32]);
}

/// Nobody looks on.
impl Observer for () {
    fn observe(&mut self, _state: &BenchState, _answers: &[i32]) {}
}

/// A bench that runs a program call by call: one that tests each move, or a machine that need not.
pub trait Runner<'a> {
    /// What it runs, and where it stands.
    ghost benched: { Self → Benched };

    /// One call of the bench, with an answer or none.
    fn step(&mut self, answer: Option<i32>) -> Result<Progress, Trap>
        ensures called { Called (setup_of (benched self.old)) (benched self.old).state answer result
            (benched self.new).state }
        ensures same { IsSameRun (benched self.old) (benched self.new) }
        ensures goes_on { OnOk result
            (GoesOn (benched self.old) (benched self.new) (motion_in result)) };

    /// Where the run stands.
    fn state(&self) -> &BenchState
        ensures { result.now ≡ (benched self.now).state };
}

impl<'a, B: Blocking> Runner<'a> for Checked<'a, B> {
    ghost benched = { λ b. b };

    fn step(&mut self, answer: Option<i32>) -> Result<Progress, Trap> {
        Checked::step(self, answer)
    }

    fn state(&self) -> &BenchState {
        self.bench().state()
    }
}

impl<'a> Runner<'a> for Machine<'a> {
    ghost benched = { λ m. m };

    fn step(&mut self, answer: Option<i32>) -> Result<Progress, Trap> {
        Ok(Machine::step(self, answer))
    }

    fn state(&self) -> &BenchState {
        self.bench().state()
    }
}

/// Takes one step of the bench, and puts what its motion closes, or gives it the next answer where it
/// asks: the run goes on with the answers that are left. Or tells how the run closes where no step is
/// to be made.
pub fn take_turn<'a, 'r, R: Runner<'r>, W: Sink>(
    runner: &mut R,
    answers: &'a [i32],
    sheet: &mut Sheet,
    sink: &mut W,
) -> Result<ControlFlow<Closing, &'a [i32]>, WriteFault>
    requires in_step { IsInStep (R.benched runner.old) sheet.old }
    requires running { (R.benched runner.old).state.mode ≡ Running }
    requires within { (R.benched runner.old).state.steps ≢ (R.benched runner.old).program.budget }
    ensures ok { IfOk result (TurnIs W.Sink sink.old sink.new
        (run_state (R.benched runner.old) answers.entry.now sheet.old)
        (R.benched runner.new) sheet.new) }
    ensures err { OnErr result (FailsInRun W.Sink sink.old sink.new
        (run_state (R.benched runner.old) answers.entry.now sheet.old)) }
    ensures stands { IfOk result
        (TurnStands (R.benched runner.old) answers.entry.now (R.benched runner.new)) }
    ensures under_way { OnErr result
        (IsInRun (R.benched runner.old) answers.entry.now (R.benched runner.new)) }
{
    match runner.step(None) {
        Ok(Progress::Went(Some(motion))) => {
            sheet.motion(motion, sink)?;
            Ok(ControlFlow::Continue(answers))
        }
        Ok(Progress::Went(None)) => Ok(ControlFlow::Continue(answers)),
        Ok(Progress::Asks(low, high)) => Ok(give_answer(runner, answers, low, high)),
        // Neither comes of a running bench without an answer.
        Ok(Progress::Again) | Ok(Progress::Ended) => Ok(ControlFlow::Continue(answers)),
        Err(trap) => {
            let state = runner.state();
            let closing = Closing::Trapped(trap, state.procedure(), state.pc() as u16);
            Ok(ControlFlow::Break(closing))
        }
    }
}

/// Gives the next answer to a bench that asks; where no answer is left the run closes.
fn give_answer<'a, 'r, R: Runner<'r>>(
    runner: &mut R,
    answers: &'a [i32],
    low: i32,
    high: i32,
) -> ControlFlow<Closing, &'a [i32]>
    requires running { (R.benched runner.old).state.mode ≡ Running }
    requires within { (R.benched runner.old).state.steps ≢ (R.benched runner.old).program.budget }
    requires asks { NextIs (setup_of (R.benched runner.old)) (R.benched runner.old).state
        (Asks low high) }
    ensures is { AnswerIs (R.benched runner.old) answers.entry.now low high (R.benched runner.new)
        result }
    ensures stands { TurnStands (R.benched runner.old) answers.entry.now (R.benched runner.new)
        result }
{
    let Some((answer, left)) = answers.split_first() else {
        return ControlFlow::Break(Closing::Waiting(low, high));
    };
    let _ = runner.step(Some(*answer));
    ControlFlow::Continue(left)
}
