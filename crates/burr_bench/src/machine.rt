ghost use Rattle.std.specs.Prelude.{◌≡◌, ◌<◌, ◌↔◌, ◌+◌, length, IsTrue, MatchOption, Some, None, slice_get, get_or, reverse, Ok, IsSome, IfOk};
ghost use Rattle.burr_voxels.specs.Near.{IsWithin};
ghost use Rattle.burr_code.specs.declared.limits.TheConstants.{MOST_OFFSET, SLOTS};
ghost use Rattle.burr_code.specs.Instruction.{Step, Aside, MovesNoPiece};
ghost use Rattle.burr_code.specs.Meaning.{meaning};
ghost use Rattle.burr_assembly.specs.Rules.Text.{IsAssembly};
ghost use Rattle.burr_container.specs.Rules.Plans.{Plan};
ghost use Rattle.burr_container.specs.Views.Containers.{IsContainer};
ghost use Rattle.burr_state.specs.Views.Programs.{plan_program};
ghost use Rattle.burr_state.specs.Rules.Bench.{start, HasLabelOf, IsLabelAt};
ghost use Rattle.burr_state.specs.Views.Benches.{IsAtStart, IsSameRun, in_state, setup_of, motion_in, GoesOn, benched};
ghost use Rattle.burr_state.specs.declared.effect.Mode.TheVariants.{Ended, Running};
ghost use Rattle.burr_state.specs.Rules.Step.{IsQuestionOf, CallIn, Called};
ghost use Rattle.burr_state.specs.Views.Offsets.{PositionHolds};
ghost use Rattle.burr_state.specs.Views.Work.{work, IsNext};
ghost use Rattle.burr_state.specs.Rules.Undo.{IsRecordOf};
ghost use Rattle.burr_state.specs.Views.Records.{IsWorkState};
ghost use Rattle.burr_verify.specs.Rules.Accepting.{IsAccepted};
ghost use Rattle.burr_bench.specs.Soundness.Machine.{IsSafeBench};
ghost use Rattle.burr_bench.specs.BenchViews.{CarriesOut};
ghost use Rattle.burr_bench.specs.Recorded.{TakesBack, GoesBack, MadeStep, gone_back};
ghost use Rattle.burr_bench.specs.Safe.{IsResumable};

use crate::laws::{an_accepted_bench_never_traps, an_accepted_step_is_recorded};
use burr_assembly::{Assembly, texts_and_assemblies_give_each_other_back};
use burr_blocking::Blocking;
use burr_code::{Instr, Placement};
use burr_state::{Bench, Effect, Mode, OwnedProgram, Program, Progress, Suspended, Undo};
use burr_verify::Accepted;
use burr_voxels::{Cell, Direction};
use std::alloc::{AllocError, Global};
use std::marker::Model;

/// The bench at work on an accepted plan. It tests no move, meets no trap and asks nothing of what
/// answers for the pieces: that each of its steps may be made is a fact of its type.
#[derive(Drop)]
pub struct Machine<'a> {
    bench: Bench<'a>,
    assembly: &'a Assembly,
}

impl<'a> Model for Machine<'a> {
    ghost use Rattle.burr_state.specs.Views.Benches.{Benched, benched};
    ghost use Rattle.burr_bench.specs.Safe.{IsSafe};

    ghost Value = { Benched };

    ghost view = { λ m. benched m.assembly.now m.bench.program m.bench.state };

    ghost invariant = { λ m. IsSafe (benched m.assembly.now m.bench.program m.bench.state) };
}

impl<'a> Machine<'a> {
    /// The machine at the start of an accepted plan: all pieces in tray 0 at home, nothing gripped.
    /// Each `Accepted` is of a plan that is accepted.
    pub fn start<'c: 'a, B: Blocking>(accepted: &Accepted<'a, 'c, B>) -> Machine<'a>
        ensures assembly { result.assembly ≡ accepted.now.judged.assembly }
        ensures program { (p : Plan) → IsContainer accepted.now.judged.container p
            → result.program ≡ plan_program p }
        ensures start { IsAtStart result }
        ensures accepted { IsAccepted accepted.now.judged }
    {
        an_accepted_bench_never_traps();
        let assembly = accepted.assembly();
        let bench = Bench::of(accepted.plan(), assembly.piece_count());
        Machine { bench, assembly }
    }

    /// Goes back to the start of the plan. That it runs safely from there is the caller's condition.
    pub fn rewind(&mut self)
        requires { IsSafeBench (in_state (start (setup_of self.old)) self.old) }
        ensures same { IsSameRun self.old self.new }
        ensures start { IsAtStart self.new }
    {
        self.bench.rewind(self.assembly.piece_count());
    }
}

impl<'a> Machine<'a> {
    /// The program at work, and where its run stands.
    pub fn bench(&self) -> &Bench<'a>
        ensures { result.now ≡ work self.now.program self.now.state }
    {
        &self.bench
    }

    /// The steps made so far.
    pub fn steps(&self) -> u64
        ensures { result ≡ self.now.state.steps }
    {
        self.bench.state().steps()
    }

    /// Whether `halt` was made.
    pub fn ended(&self) -> bool
        ensures { IsTrue result ↔ (self.now.state.mode ≡ Ended) }
    {
        self.bench.state().mode() == Mode::Ended
    }

    /// The question for which the run waits: the least and the greatest number that answer it; None
    /// where it waits for none.
    pub fn question(&self) -> Option<(i32, i32)>
        ensures { IsQuestionOf (setup_of self.now) self.now.state result }
    {
        self.bench.question()
    }

    /// The assembly whose pieces are moved.
    pub fn assembly(&self) -> &'a Assembly
        ensures assembly { result.now ≡ self.now.assembly }
        ensures whole { IsAssembly self.now.assembly }
    {
        self.assembly
    }

    /// Where a piece is: apart, or in a tray, 0 to 31, and how far from home it lies there. Its
    /// number is below the count of pieces, the caller's condition.
    pub fn place(&self, piece: u8) -> Placement<Cell>
        requires { piece < length self.now.assembly.pieces }
        ensures place { slice_get self.now.state.places piece ≡ Some result }
        ensures near { PositionHolds (IsWithin MOST_OFFSET) result }
    {
        self.bench.state().place(piece)
    }

    /// The current tray, 0 to 31.
    pub fn tray(&self) -> u8
        ensures { result ≡ self.now.state.tray }
    {
        self.bench.state().tray()
    }

    /// The pieces of the current tray that are gripped: bit p is piece p.
    pub fn grip(&self) -> u32
        ensures { result ≡ self.now.state.grip }
    {
        self.bench.state().grip()
    }

    /// The number of activations: the running one and those that wait for it.
    pub fn depth(&self) -> usize
        ensures { result ≡ length self.now.state.callers + 1 }
    {
        self.bench.state().depth()
    }

    /// The number of the running procedure.
    pub fn proc(&self) -> u8
        ensures { result ≡ self.now.state.running.procedure }
    {
        self.bench.state().procedure()
    }

    /// Where the next instruction stands in the running procedure's code.
    pub fn pc(&self) -> u16
        ensures { result ≡ self.now.state.running.pc }
    {
        self.bench.state().pc() as u16
    }

    /// The position of a label in a procedure's code; None where there is no such procedure or
    /// label.
    pub fn label(&self, procedure: u8, label: u16) -> Option<u16>
        ensures { MatchOption result (¬ HasLabelOf (setup_of self.now) procedure label)
            (IsLabelAt (setup_of self.now) procedure label) }
    {
        self.bench.label(procedure, label)
    }

    /// The value of a slot of the running activation; None where it is empty. Slots are numbered
    /// from 0 to 7, the caller's condition.
    pub fn slot(&self, slot: u8) -> Option<i32>
        requires { slot < SLOTS }
        ensures { result ≡ get_or self.now.state.running.slots slot None }
    {
        self.bench.state().slot(slot)
    }

    /// The operands of the running activation, the bottom first.
    pub fn operands(&self) -> &[i32]
        ensures { result.now ≡ reverse self.now.state.running.operands }
    {
        self.bench.state().operands()
    }
}

impl Machine<'_> {
    /// One call of the machine. While it runs it carries out the next instruction, or tells what
    /// that asks for; after `halt` it answers the end. An answer is taken where it fits the
    /// question; else it is passed over, and nothing changes.
    pub fn step(&mut self, answer: Option<i32>) -> Progress
        ensures called { Called (setup_of self.old) self.old.state answer (Ok result)
            self.new.state }
        ensures same { IsSameRun self.old self.new }
        ensures goes_on { GoesOn self.old self.new (motion_in (Ok result)) }
    {
        if self.bench.state().mode() == Mode::Ended {
            return Progress::Ended;
        }
        match answer {
            None => self.go_on(),
            Some(answer) => self.take(answer),
        }
    }

    /// Carries out the next instruction, or tells what it asks for.
    fn go_on(&mut self) -> Progress
        requires running { self.old.state.mode ≡ Running }
        ensures called { CallIn Running (setup_of self.old) self.old.state None (Ok result)
            self.new.state }
        ensures same { IsSameRun self.old self.new }
        ensures goes_on { GoesOn self.old self.new (motion_in (Ok result)) }
    {
        match self.carry_out() {
            Effect::Goes(motion) => Progress::Went(motion),
            Effect::Asks(low, high) => Progress::Asks(low, high),
        }
    }

    /// Takes an answer where the next instruction asks for it and it fits; else nothing changes.
    fn take(&mut self, answer: i32) -> Progress
        requires running { self.old.state.mode ≡ Running }
        ensures called { CallIn Running (setup_of self.old) self.old.state (Some answer)
            (Ok result) self.new.state }
        ensures same { IsSameRun self.old self.new }
        ensures goes_on { GoesOn self.old self.new None }
    {
        an_accepted_bench_never_traps();
        if self.bench.take(answer) {
            Progress::Went(None)
        } else {
            Progress::Again
        }
    }

    /// Carries out the next instruction; a question changes nothing.
    fn carry_out(&mut self) -> Effect
        requires running { self.old.state.mode ≡ Running }
        ensures { CarriesOut self.old self.new result }
    {
        an_accepted_bench_never_traps();
        let Some((instruction, size)) = self.bench.next() else {
            unreachable!();
        };
        match instruction {
            Instr::Step(direction) => self.move_grip(direction, size),
            Instr::Aside(direction, tray) => self.go_aside(direction, tray, size),
            other => self.execute(&other, size),
        }
    }

    /// An instruction that moves no piece.
    fn execute(&mut self, instruction: &Instr<'_>, size: usize) -> Effect
        requires running { self.old.state.mode ≡ Running }
        requires still { MovesNoPiece (meaning instruction.now) }
        requires next { IsNext (work self.old.program self.old.state) (meaning instruction.now)
            size }
        ensures { CarriesOut self.old self.new result }
    {
        an_accepted_bench_never_traps();
        match self.bench.execute(instruction, size) {
            Ok(effect) => effect,
            Err(_) => unreachable!(),
        }
    }

    /// `step`: the grip goes one unit along a direction.
    fn move_grip(&mut self, direction: Direction, size: usize) -> Effect
        requires running { self.old.state.mode ≡ Running }
        requires next { IsNext (work self.old.program self.old.state) (Step direction) size }
        ensures { CarriesOut self.old self.new result }
    {
        an_accepted_bench_never_traps();
        Effect::Goes(Some(self.bench.move_grip(direction, size)))
    }

    /// `aside`: the grip goes out along a direction, to another tray.
    fn go_aside(&mut self, direction: Direction, tray: u8, size: usize) -> Effect
        requires running { self.old.state.mode ≡ Running }
        requires next { IsNext (work self.old.program self.old.state) (Aside direction tray) size }
        ensures { CarriesOut self.old self.new result }
    {
        an_accepted_bench_never_traps();
        Effect::Goes(Some(self.bench.go_aside(direction, tray, size)))
    }
}

// Steps with a record, and going back by it.
impl Machine<'_> {
    /// Does what `step` does, and gives the record of the step exactly where one was made. By the
    /// record `undo` goes back to the machine before it.
    pub fn step_recorded(&mut self, answer: Option<i32>) -> (Progress, Option<Undo>)
        ensures called { Called (setup_of self.old) self.old.state answer (Ok result.0)
            self.new.state }
        ensures same { IsSameRun self.old self.new }
        ensures goes_on { GoesOn self.old self.new (motion_in (Ok result.0)) }
        ensures made { IsSome result.1 ↔ MadeStep result.0 }
        ensures goes_back { GoesBack self.old self.new result.1 }
    {
        if self.bench.state().mode() == Mode::Ended {
            return (Progress::Ended, None);
        }
        an_accepted_step_is_recorded();
        let undo = self.record();
        match self.step(answer) {
            Progress::Went(motion) => (Progress::Went(motion), Some(undo)),
            other => (other, None),
        }
    }

    /// Goes back a step, by its record: the machine is as it was before, its steps too. The
    /// record's old values, laid over the machine, give a machine that runs safely and whose step,
    /// with some answer or none, gives this one and this record, the caller's condition.
    pub fn undo(&mut self, undo: Undo)
        requires { TakesBack self.old undo }
        ensures { self.new ≡ gone_back undo self.old }
    {
        self.bench.undo(undo);
    }

    /// The record of the step that comes next.
    fn record(&self) -> Undo
        requires running { self.now.state.mode ≡ Running }
        ensures record { IsRecordOf (setup_of self.now) self.now.state result }
        ensures state { IsWorkState self.now.program.procedures self.now.state }
    {
        an_accepted_bench_never_traps();
        let Some((instruction, _)) = self.bench.next() else {
            unreachable!();
        };
        self.bench.record(&instruction)
    }
}

// Runs of accepted plans that are let lie, and gone on with, without judging again.
impl<'a> Machine<'a> {
    /// The assembly and the program, as copies that borrow nothing.
    pub fn keep(&self, alloc: Global) -> Result<(Assembly, OwnedProgram), AllocError>
        ensures { IfOk result (λ kept.
            (kept.0 ≡ self.now.assembly) × (kept.1 ≡ self.now.program)) }
    {
        let assembly = copy_of(alloc, self.assembly())?;
        let program = OwnedProgram::of(alloc, self.bench.program())?;
        Ok((assembly, program))
    }

    /// Lets go of the program and the assembly, and keeps where the run stands.
    pub fn suspend(self) -> Suspended
        ensures state { result ≡ self.entry.state }
        ensures resumable { IsResumable self.entry }
    {
        let Machine { bench, assembly: _ } = self;
        bench.suspend()
    }

    /// The machine where it was suspended. That it ran this program on this assembly is the caller's
    /// condition.
    pub fn resume(program: Program<'a>, assembly: &'a Assembly, suspended: Suspended) -> Machine<'a>
        requires { IsResumable (benched assembly.now program suspended) }
        ensures { result ≡ benched assembly.entry.now program.entry suspended }
    {
        let bench = Bench::resume(program, suspended);
        Machine { bench, assembly }
    }
}

/// The same assembly, read from its text.
fn copy_of(alloc: Global, assembly: &Assembly) -> Result<Assembly, AllocError>
    requires { IsAssembly assembly.now }
    ensures { IfOk result (λ copy. copy ≡ assembly.now) }
{
    texts_and_assemblies_give_each_other_back();
    let text = assembly.write(alloc)?;
    match Assembly::read(alloc, &text) {
        Ok(copy) => Ok(copy),
        // an assembly's text has no fault, so that only memory was refused
        Err(_fault) => Err(AllocError),
    }
}
