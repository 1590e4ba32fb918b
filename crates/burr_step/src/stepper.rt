ghost use Rattle.std.specs.Prelude.{IfOk, ◌≡◌, ◌≤◌, ◌↔◌, IsTrue, OnOk, true, false, [], length, take};
ghost use Rattle.burr_step.specs.Views.Stepping.{IsFresh, IsPaused, IsPauseOf, stepping_at, LabelsAreFew, CameTo, commanding, NeedsNoMemory, IsThere, StopsFor, IsStepOn, IsStill, stepping, IsDone, IsUnderWay, HasRun, IsLeft, IsNextAnswer, taken_more};
ghost use Rattle.burr_state.specs.declared.effect.Mode.TheVariants.{Ended};
ghost use Rattle.burr_state.specs.Rules.Bench.{HasLabelOf};
ghost use Rattle.burr_state.specs.Rules.Step.{IsQuestionOf};
ghost use Rattle.burr_state.specs.Views.Benches.{setup_of, IsAtStart, IsSameRun};
ghost use Rattle.burr_assembly.specs.Rules.Homes.{names_of};
ghost use Rattle.burr_io.specs.Sink.{Puts};
ghost use Rattle.burr_step.specs.Rules.StepTexts.{show_text};
ghost use Rattle.burr_step.specs.Rules.Stepper.{Answer, Forward, Over, Until, going, going_until, Back};

use crate::records::Records;
use crate::state_text::put_state;
use burr_assembly::Assembly;
use burr_bench::{Machine, OwnedProgram, Program, Suspended, an_accepted_bench_never_traps};
use burr_blocking::Blocking;
use burr_io::{Sink, WriteFault};
use burr_verify::{Accepted, a_fitting_plan_is_from_a_container};
use std::alloc::{AllocError, AllocFailed, Global};
use std::marker::Model;
use thiserror::Error;

/// A run of an accepted plan, step by step: it goes forwards by commands, and back by records of
/// its last 256 steps, or by running again with the answers that are kept.
#[derive(Drop)]
pub struct Stepper<'a> {
    machine: Machine<'a>,
    /// The answers that the steps so far took, in their order.
    answers: Vec<i32>,
    /// The records of the last steps.
    records: Records,
}

impl<'a> Model for Stepper<'a> {
    ghost use Rattle.burr_step.specs.Views.Stepping.{Stepping, stepping, IsUnderWay};

    ghost Value = { Stepping };

    ghost view = { λ s. stepping s.machine s.answers.items };

    ghost invariant = { λ s. IsUnderWay (stepping s.machine s.answers.items) s.records };
}

impl<'a> Stepper<'a> {
    /// A run of an accepted plan before its first step. All memory but that of answers is asked for
    /// here.
    pub fn new<'c: 'a, B: Blocking>(
        alloc: Global,
        accepted: &Accepted<'a, 'c, B>,
    ) -> Result<Stepper<'a>, AllocError>
        ensures { IfOk result (IsFresh accepted.now.judged) }
    {
        an_accepted_bench_never_traps();
        let records = Records::new(alloc)?;
        Ok(Stepper {
            machine: Machine::start(accepted),
            answers: Vec::new(alloc),
            records,
        })
    }

    /// The stepper that was paused where it stood. That it ran this program on this assembly is the
    /// caller's condition.
    pub fn resume(program: Program<'a>, assembly: &'a Assembly, paused: Paused) -> Stepper<'a>
        requires { IsPaused assembly.now program paused }
        ensures { result ≡ stepping_at assembly.entry.now program.entry paused }
    {
        Stepper {
            machine: Machine::resume(program, assembly, paused.run),
            answers: paused.answers,
            records: paused.records,
        }
    }

    /// Lets go of the program and the assembly, and keeps where the stepper stands.
    pub fn pause(self) -> Paused
        ensures { IsPauseOf self.entry result }
    {
        Paused {
            run: self.machine.suspend(),
            answers: self.answers,
            records: self.records,
        }
    }

    /// The assembly and the program, as copies that borrow nothing.
    pub fn keep(&self, alloc: Global) -> Result<(Assembly, OwnedProgram), AllocError>
        ensures { IfOk result (λ kept.
            (kept.0 ≡ self.now.bench.assembly) × (kept.1 ≡ self.now.bench.program)) }
    {
        self.machine.keep(alloc)
    }

    /// The question for which the run waits: the least and the greatest number that answer it. None
    /// where it waits for none.
    pub fn asks(&self) -> Option<(i32, i32)>
        ensures { IsQuestionOf (setup_of self.now.bench) self.now.bench.state result }
    {
        self.machine.question()
    }

    /// Whether the run has ended.
    pub fn ended(&self) -> bool
        ensures { IsTrue result ↔ (self.now.bench.state.mode ≡ Ended) }
    {
        self.machine.ended()
    }

    /// How many steps the run has made: whatever the commands were, no more than the plan's budget.
    pub fn steps(&self) -> u64
        ensures state { result ≡ self.now.bench.state.steps }
        ensures history { result ≡ self.now.history.steps }
        ensures within { result ≤ self.now.bench.program.budget }
    {
        a_fitting_plan_is_from_a_container();
        self.machine.steps()
    }

    /// Puts where the run stands: its steps, procedure and position; the tray and the names of the
    /// gripped pieces; the slots and operands of the running activation, the bottom operand first;
    /// and where each piece is, by how far from home it lies.
    pub fn show<W: Sink>(&self, sink: &mut W) -> Result<(), WriteFault>
        ensures { Puts W.Sink sink.old sink.new
            (show_text (names_of self.now.bench.assembly) self.now.bench.state) result }
    {
        put_state(&self.machine, sink)
    }

    /// Whether the plan has such a procedure with such a label, both counted from 0.
    pub fn has_label(&self, procedure: u8, label: u16) -> bool
        ensures { IsTrue result ↔ HasLabelOf (setup_of self.now.bench) procedure label }
    {
        self.machine.label(procedure, label).is_some()
    }

    /// A law of each run: the numbers of its plan's labels fit those that `has_label` takes.
    pub fn labels_are_few(&self)
        ensures { LabelsAreFew (setup_of self.now.bench) }
    {
        a_fitting_plan_is_from_a_container();
        // The invariant of this type has it.
        let _ = &self.machine;
    }

    /// Answers the question for which the run waits, which makes one step. S1 where the run has
    /// ended, S3 where it waits for no answer or this one does not fit; `Memory` where a request
    /// for memory was refused.
    pub fn answer(&mut self, answer: i32) -> Result<(), StepRefusal>
        ensures { CameTo self.old (commanding self.old (Answer answer)) result self.new }
    {
        a_fitting_plan_is_from_a_container();
        if self.machine.ended() {
            return Err(StepRefusal::S1);
        }
        self.answers.push(answer)?;
        if !step_on(&mut self.machine, Some(answer), &mut self.records) {
            let _ = self.answers.pop();
            return Err(StepRefusal::S3);
        }
        Ok(())
    }

    /// Makes one step. S1 where the run has ended, S2 where it waits for an answer.
    pub fn forward(&mut self) -> Result<(), StepRefusal>
        ensures comes { CameTo self.old (commanding self.old Forward) result self.new }
        ensures no_memory { NeedsNoMemory result }
        ensures within { OnOk result (self.new.history.steps ≤ self.old.bench.program.budget) }
    {
        a_fitting_plan_is_from_a_container();
        if self.machine.ended() {
            return Err(StepRefusal::S1);
        }
        if !step_on(&mut self.machine, None, &mut self.records) {
            return Err(StepRefusal::S2);
        }
        Ok(())
    }

    /// Makes one step, and after a call goes on until that has returned, or the run waits for an
    /// answer or has ended. S1 where it has ended before, S2 where it waits for an answer.
    pub fn over(&mut self) -> Result<(), StepRefusal>
        ensures comes { CameTo self.old (commanding self.old Over) result self.new }
        ensures no_memory { NeedsNoMemory result }
    {
        let depth = self.machine.depth();
        self.go_to(Stop::Depth(depth))
    }

    /// Makes steps, at least one, until a procedure runs and stands at this label, or the run waits
    /// for an answer or has ended. That there is such a label is the caller's condition, which
    /// `has_label` tells. S1 where it has ended before, S2 where it waits for an answer.
    pub fn until(&mut self, procedure: u8, label: u16) -> Result<(), StepRefusal>
        requires { HasLabelOf (setup_of self.old.bench) procedure label }
        ensures comes { CameTo self.old (commanding self.old (Until procedure label))
            result self.new }
        ensures no_memory { NeedsNoMemory result }
    {
        let Some(position) = self.machine.label(procedure, label) else {
            unreachable!();
        };
        self.go_to(Stop::Position(procedure, position))
    }

    /// Makes steps, at least one, until the run is there, waits for an answer or has ended.
    fn go_to(&mut self, stop: Stop) -> Result<(), StepRefusal>
        ensures comes { let setup = setup_of self.old.bench in
            CameTo self.old (going setup self.old.bench.state
            (going_until setup self.old.history self.old.bench.state (StopsFor setup stop)))
            result self.new }
        ensures no_memory { NeedsNoMemory result }
    {
        self.forward()?;
        loop {
            if stop.is_met(&self.machine) {
                return Ok(());
            }
            if let Err(_halted) = self.forward() {
                return Ok(());
            }
        }
    }

    /// Goes this many steps back, and forgets the answers that these took: by records where there
    /// are as many, else by running again from the start. S4 where fewer steps have been made.
    pub fn back(&mut self, steps: u32) -> Result<(), StepRefusal>
        ensures comes { CameTo self.old (commanding self.old (Back steps)) result self.new }
        ensures no_memory { NeedsNoMemory result }
    {
        if self.machine.steps() < u64::from(steps) {
            return Err(StepRefusal::S4);
        }
        if steps as usize <= self.records.len() {
            undo_last(
                steps,
                &mut self.machine,
                &mut self.answers,
                &mut self.records,
            );
        } else {
            self.start_again(steps);
        }
        Ok(())
    }

    /// Goes this many steps back, by running again from the start and leaving out the last ones.
    fn start_again(&mut self, steps: u32)
        requires { steps ≤ self.old.history.steps }
        ensures { IsDone self.old (commanding self.old (Back steps)) self.new }
    {
        let left = self.machine.steps() - u64::from(steps);
        self.machine.rewind();
        self.records.clear();
        let taken = run_again(left, &mut self.machine, &self.answers, &mut self.records);
        self.answers.truncate(taken);
    }
}

/// Where a stepper stands, and nothing of what it runs.
#[derive(Drop)]
pub struct Paused {
    run: Suspended,
    answers: Vec<i32>,
    records: Records,
}

impl Model for Paused {
    ghost use Rattle.burr_step.specs.Views.Stepping.{Pause, pause};

    ghost Value = { Pause };

    ghost view = { λ p. pause p.run p.answers.items p.records };
}

/// Where several steps stop, if the run does not halt before.
#[derive(Clone, Copy)]
pub enum Stop {
    /// There are no more activations than these.
    Depth(usize),
    /// A procedure runs, and stands at this position of its code.
    Position(u8, u16),
}

impl Stop {
    /// Whether a machine is there.
    fn is_met(self, machine: &Machine<'_>) -> bool
        ensures { IsTrue result ↔ IsThere self machine.now.state }
    {
        match self {
            Stop::Depth(depth) => machine.depth() <= depth,
            Stop::Position(procedure, position) => {
                machine.proc() == procedure && machine.pc() == position
            }
        }
    }
}

/// Makes a machine's next step, with this answer or none, and keeps its record; false where the
/// machine makes no step, and then nothing changes.
pub(crate) fn step_on(machine: &mut Machine<'_>, answer: Option<i32>, records: &mut Records) -> bool
    ensures made { result ≡ true
        → IsStepOn machine.old answer records.old machine.new records.new }
    ensures still { result ≡ false
        → IsStill machine.old answer records.old machine.new records.new }
{
    let (_progress, undo) = machine.step_recorded(answer);
    match undo {
        Some(undo) => {
            records.push(undo);
            true
        }
        None => false,
    }
}

/// Goes this many steps back by their records.
fn undo_last(steps: u32, machine: &mut Machine<'_>, answers: &mut Vec<i32>, records: &mut Records)
    requires under_way { IsUnderWay (stepping machine.old answers.old.items) records.old }
    requires records { steps ≤ length records.old }
    ensures under_way { IsUnderWay (stepping machine.new answers.new.items) records.new }
    ensures back { let old = stepping machine.old answers.old.items in
        IsDone old (commanding old (Back steps)) (stepping machine.new answers.new.items) }
{
    a_fitting_plan_is_from_a_container();
    for _step in 0..steps {
        let Some(undo) = records.pop() else {
            unreachable!();
        };
        machine.undo(undo);
        forget_answer(machine, answers);
    }
}

/// Makes this many steps of a machine that is at its start, with these answers; gives how many of
/// the answers were taken.
fn run_again(steps: u64, machine: &mut Machine<'_>, answers: &[i32], records: &mut Records) -> usize
    requires start { IsAtStart machine.old }
    requires under_way { IsUnderWay (stepping machine.old []) records.old }
    requires run { HasRun machine.old answers.now steps }
    ensures same { IsSameRun machine.old machine.new }
    ensures steps { machine.new.state.steps ≡ steps }
    ensures under_way { IsUnderWay (stepping machine.new (take result answers.now)) records.new }
{
    a_fitting_plan_is_from_a_container();
    let mut taken = 0;
    for _step in 0..steps {
        let (answer, taken_then) = next_answer(machine, answers, taken);
        if !step_on(machine, answer, records) {
            unreachable!();
        }
        taken = taken_then;
    }
    taken
}

/// Forgets the last answer where a machine waits for one: its step, which is undone, took that.
fn forget_answer(machine: &Machine<'_>, answers: &mut Vec<i32>)
    ensures { IsLeft (setup_of machine.now) machine.now.state answers.old.items answers.new.items }
{
    match machine.question() {
        Some(_question) => {
            let _ = answers.pop();
        }
        None => {}
    }
}

/// The answer that a machine takes next after the first `taken` of them, None where it waits for
/// none or none is left; and how many are then taken.
fn next_answer(machine: &Machine<'_>, answers: &[i32], taken: usize) -> (Option<i32>, usize)
    ensures answer { IsNextAnswer (setup_of machine.now) machine.now.state answers.now taken
        result.0 }
    ensures taken { result.1 ≡ taken_more result.0 taken }
{
    match machine.question() {
        Some(_question) => match answers.get(taken) {
            Some(answer) => (Some(*answer), taken + 1),
            None => (None, taken),
        },
        None => (None, taken),
    }
}

/// Why a command of a stepper is refused; then nothing has changed.
#[derive(Clone, Copy, Debug, PartialEq, Eq, Error)]
pub enum StepRefusal {
    #[error("S1: the run has ended")]
    S1,
    #[error("S2: the run waits for an answer")]
    S2,
    #[error("S3: no question stands that the answer fits")]
    S3,
    #[error("S4: there are not so many steps to go back")]
    S4,
    #[error("no memory")]
    Memory,
}

impl From<AllocError> for StepRefusal {
    ghost use Rattle.std.specs.Prelude.{◌≡◌};
    ghost use Rattle.burr_step.specs.declared.stepper.StepRefusal.TheVariants.{Memory};

    ghost from_gives = { λ _ e. e ≡ Memory };

    fn from(_e: AllocError) -> StepRefusal {
        StepRefusal::Memory
    }
}

impl<T: Drop> From<AllocFailed<T>> for StepRefusal {
    ghost use Rattle.std.specs.Prelude.{◌≡◌};
    ghost use Rattle.burr_step.specs.declared.stepper.StepRefusal.TheVariants.{Memory};

    ghost from_gives = { λ _ e. e ≡ Memory };

    fn from(_e: AllocFailed<T>) -> StepRefusal {
        StepRefusal::Memory
    }
}
