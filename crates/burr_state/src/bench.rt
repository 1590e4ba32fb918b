ghost use Rattle.std.specs.Prelude.{◌≡◌, ◌<◌, ◌≤◌, length, ◌+◌, ◌↔◌, List, IfSome, IsTrue, MatchOption, Some, None, slice_get, get_or, reverse, true, false};
ghost use Rattle.burr_voxels.specs.declared.cell.Cell.{Cell};
ghost use Rattle.burr_voxels.specs.Near.{IsWithin};
ghost use Rattle.burr_code.specs.declared.limits.TheConstants.{MOST_CODE, MOST_BUDGET, MOST_OFFSET, SLOTS};
ghost use Rattle.burr_code.specs.Places.{IsPartOfTray, IsEmptyTray};
ghost use Rattle.burr_code.specs.Instruction.{Instruction, MovesNoPiece};
ghost use Rattle.burr_code.specs.Meaning.{meaning};
ghost use Rattle.burr_container.specs.Rules.Plans.{Plan};
ghost use Rattle.burr_container.specs.Views.Containers.{IsContainer};
ghost use Rattle.burr_state.specs.Rules.Bench.{bare_program, running, HasLabelOf, IsLabelAt};
ghost use Rattle.burr_state.specs.Views.Programs.{plan_program, FitsProgram};
ghost use Rattle.burr_state.specs.Views.StateViews.{at_start, IsOffsetHere, StaysOnBench, gone_aside, moved_grip};
ghost use Rattle.burr_state.specs.Views.Work.{work, IsNext, StandsBefore};
ghost use Rattle.burr_state.specs.Views.Offsets.{AreNear, PositionHolds};
ghost use Rattle.burr_state.specs.Rules.Step.{IsQuestionOf, NextIs};
ghost use Rattle.burr_state.specs.Views.Effects.{question_in, next_of, KeepsUnlessGoes, NeverMoves, PiecesStay, StaysPut};
ghost use Rattle.burr_state.specs.declared.effect.Mode.TheVariants.{Trapped};
ghost use Rattle.burr_state.specs.Rules.Space.{motion_of};
ghost use Rattle.burr_state.specs.Views.Benches.{Answered};
ghost use Rattle.burr_state.specs.Rules.Undo.{laid_over, IsRecordOf};
ghost use Rattle.burr_state.specs.Views.Records.{IsWorkState};

use crate::activation::Suspended;
use crate::effect::{Effect, Mode, Motion, Trap};
use crate::program::Program;
use crate::state::BenchState;
use crate::undo::Undo;
use burr_code::{Instr, Placement, fetch};
use burr_container::Container;
use burr_voxels::{Cell, Direction};
use std::marker::Model;

/// A program at work: what is run, and where the run stands. Whether pieces are in each other's way
/// is no part of it: who runs a program asks that before a move, or knows it.
#[derive(Debug, Drop)]
pub struct Bench<'a> {
    program: Program<'a>,
    state: BenchState,
}

impl<'a> Model for Bench<'a> {
    ghost use Rattle.burr_state.specs.Views.Programs.{FitsProgram};
    ghost use Rattle.burr_state.specs.Views.Work.{Work, work};

    ghost Value = { Work };

    ghost view = { λ b. work b.program b.state };

    ghost invariant = { λ b. FitsProgram b.program.procedures b.state };
}

impl<'a> Bench<'a> {
    /// A container's plan before its first step, with this many pieces: all in tray 0 at home,
    /// nothing gripped.
    pub fn of<'c: 'a>(container: &Container<'c>, pieces: u8) -> Bench<'a>
        requires { pieces ≤ 32 }
        ensures program { (p : Plan) → IsContainer container.entry.now p
            → result.program ≡ plan_program p }
        ensures start { result.state ≡ at_start pieces }
    {
        Bench {
            program: Program::of(container),
            state: BenchState::start(pieces),
        }
    }

    /// Bare code of at most 4,096 bytes before its first step, with this many pieces: one procedure
    /// without labels; all pieces in tray 0 at home, nothing gripped.
    pub fn bare(code: &'a [u8], pieces: u8) -> Bench<'a>
        requires short { length code.now ≤ MOST_CODE }
        requires few { pieces ≤ 32 }
        ensures program { result.program ≡ bare_program code.entry.now }
        ensures start { result.state ≡ at_start pieces }
    {
        Bench {
            program: Program::bare(code),
            state: BenchState::start(pieces),
        }
    }

    /// Goes back to before the first step of the program, with this many pieces.
    pub fn rewind(&mut self, pieces: u8)
        requires { pieces ≤ 32 }
        ensures { self.new ≡ work self.old.program (at_start pieces) }
    {
        self.state = BenchState::start(pieces);
    }

    /// Where the run stands.
    pub fn state(&self) -> &BenchState
        ensures { result.now ≡ self.now.state }
    {
        &self.state
    }

    /// The most steps that a run makes.
    pub fn budget(&self) -> u32
        ensures budget { result ≡ self.now.program.budget }
        ensures few { result ≤ MOST_BUDGET }
    {
        self.program.budget()
    }

    /// The position of a label in a procedure's code; None where there is no such procedure or
    /// label.
    pub fn label(&self, procedure: u8, label: u16) -> Option<u16>
        ensures { (homes : List (List Cell)) → MatchOption result
            (¬ HasLabelOf (running homes self.now.program) procedure label)
            (IsLabelAt (running homes self.now.program) procedure label) }
    {
        self.program.procedure(procedure)?.label(label)
    }

    /// The question for which the run waits: the least and the greatest number that answer it; None
    /// where it waits for none.
    pub fn question(&self) -> Option<(i32, i32)>
        ensures { (homes : List (List Cell))
            → IsQuestionOf (running homes self.now.program) self.now.state result }
    {
        if self.state.mode() != Mode::Running {
            return None;
        }
        let procedure = self.program.procedure(self.state.procedure()).unwrap();
        let (instruction, _) = fetch(procedure.code(), self.state.pc())?;
        match instruction {
            Instr::Ask(low, high) => question_of(self.state.ask(low, high)),
            Instr::Pick(labels) => question_of(self.state.pick(&labels, procedure)),
            _other => None,
        }
    }

    /// The next instruction, and how many bytes it has; None where no instruction stands there.
    pub fn next(&self) -> Option<(Instr<'a>, usize)>
        ensures { MatchOption result ((i : Instruction) → ¬ StandsBefore self.now i)
            (λ next. IsNext self.now (meaning next.0) next.1) }
    {
        let procedure = self.program.procedure(self.state.procedure()).unwrap();
        fetch(procedure.code(), self.state.pc())
    }

    /// Carries out the next instruction, of this many bytes, where that is neither `step` nor
    /// `aside`; a trap or a question changes nothing.
    pub fn execute(&mut self, instruction: &Instr<'_>, size: usize) -> Result<Effect, Trap>
        requires still { MovesNoPiece (meaning instruction.now) }
        requires next { IsNext self.old (meaning instruction.now) size }
        ensures next { (homes : List (List Cell)) → NextIs (running homes self.old.program)
            self.old.state (next_of result self.new.state) }
        ensures kept { KeepsUnlessGoes result self.old self.new }
        ensures no_motion { NeverMoves result }
        ensures pieces { PiecesStay self.old.state self.new.state }
        ensures program { self.new.program ≡ self.old.program }
    {
        let procedure = self.program.procedure(self.state.procedure()).unwrap();
        self.state
            .execute(instruction, procedure, &self.program, size)
    }

    /// The step of a `step` of `size` bytes; whether it may be made is not tested here. The grip
    /// goes one unit along a direction, and stays on the bench.
    pub fn move_grip(&mut self, direction: Direction, size: usize) -> Motion
        requires on_bench { StaysOnBench self.old.state direction }
        requires within { self.old.state.running.pc + size ≤ MOST_CODE }
        ensures motion { result
            ≡ motion_of self.old.state.grip self.old.state.tray direction false }
        ensures state { self.new.state ≡ moved_grip direction size self.old.state }
        ensures program { self.new.program ≡ self.old.program }
    {
        let motion = self.motion(direction, false);
        self.state.move_grip(direction, size);
        motion
    }

    /// The step of an `aside` of `size` bytes; whether it may be made is not tested here. The grip
    /// goes out along a direction to an empty tray, a piece that is then alone in one of the two
    /// trays is apart, and nothing is gripped.
    pub fn go_aside(&mut self, direction: Direction, tray: u8, size: usize) -> Motion
        requires within { self.old.state.running.pc + size ≤ MOST_CODE }
        ensures motion { result ≡ motion_of self.old.state.grip self.old.state.tray direction true }
        ensures state { self.new.state ≡ gone_aside tray size self.old.state }
        ensures program { self.new.program ≡ self.old.program }
    {
        let motion = self.motion(direction, true);
        self.state.go_aside(tray, size);
        motion
    }

    /// A trap: nothing but the mode changes.
    pub fn trap(&mut self, trap: Trap)
        ensures state { self.new.state ≡ record self.old.state { mode = Trapped trap } }
        ensures program { self.new.program ≡ self.old.program }
    {
        self.state.trap(trap);
    }

    /// The grip's motion along a direction, in its tray or out of it.
    fn motion(&self, direction: Direction, out: bool) -> Motion
        ensures { result ≡ motion_of self.now.state.grip self.now.state.tray direction out }
    {
        Motion {
            group: self.state.grip(),
            tray: self.state.tray(),
            dir: direction,
            out,
        }
    }

    /// Takes an answer where the next instruction asks for one that it fits; else nothing changes.
    /// Whether it is taken.
    pub fn take(&mut self, answer: i32) -> bool
        ensures answered { (homes : List (List Cell)) → Answered (running homes self.old.program)
            self.old.state answer result self.new.state }
        ensures stays { StaysPut self.old.state self.new.state }
        ensures program { self.new.program ≡ self.old.program }
    {
        let procedure = self.program.procedure(self.state.procedure()).unwrap();
        let Some((instruction, size)) = fetch(procedure.code(), self.state.pc()) else {
            return false;
        };
        match instruction {
            Instr::Ask(low, high) => self.state.take_number(low, high, answer, size),
            Instr::Pick(labels) => self.state.take_label(&labels, procedure, answer),
            _other => false,
        }
    }

    /// What the bench runs.
    pub fn program(&self) -> &Program<'a>
        ensures { result.now ≡ self.now.program }
    {
        &self.program
    }

    /// Lets go of what is run, and keeps where the run stands.
    pub fn suspend(self) -> Suspended
        ensures state { result ≡ self.entry.state }
        ensures fits { FitsProgram self.entry.program.procedures result }
    {
        Suspended { state: self.state }
    }

    /// A program at work, where a run of it was suspended, the caller's condition.
    pub fn resume(program: Program<'a>, suspended: Suspended) -> Bench<'a>
        requires { FitsProgram program.procedures suspended }
        ensures { result ≡ work program.entry suspended }
    {
        Bench {
            program,
            state: suspended.state,
        }
    }

    /// The record of the step that the next instruction makes: what the step will change, as it is
    /// now.
    pub fn record(&self, instruction: &Instr<'_>) -> Undo
        requires { StandsBefore self.now (meaning instruction.now) }
        ensures record { (homes : List (List Cell))
            → IsRecordOf (running homes self.now.program) self.now.state result }
        ensures state { IsWorkState self.now.program.procedures self.now.state }
    {
        let procedure = self.program.procedure(self.state.procedure()).unwrap();
        self.state.record(instruction, procedure)
    }

    /// Goes back a step: lays the old values of its record over the state, where that gives a state
    /// of this bench.
    pub fn undo(&mut self, undo: Undo)
        requires { IsWorkState self.old.program.procedures (laid_over undo self.old.state) }
        ensures state { self.new.state ≡ laid_over undo self.old.state }
        ensures program { self.new.program ≡ self.old.program }
    {
        self.state.undo(undo);
    }
}

/// The question that an instruction came to; None where it came to something else.
fn question_of(outcome: Result<Effect, Trap>) -> Option<(i32, i32)>
    ensures { result ≡ question_in outcome }
{
    match outcome {
        Ok(Effect::Asks(low, high)) => Some((low, high)),
        Ok(Effect::Goes(_)) | Err(_) => None,
    }
}
