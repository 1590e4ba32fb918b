ghost use Rattle.std.specs.Prelude.{◌≡◌, ◌≤◌, ◌+◌, List, Some, OnOk, length, slice_get, MatchOption};
ghost use Rattle.burr_voxels.specs.declared.cell.Cell.{Cell};
ghost use Rattle.burr_code.specs.declared.limits.TheConstants.{MOST_CODE};
ghost use Rattle.burr_code.specs.Instruction.{MovesNoPiece, Push, Load, Store, Add, Sub, Drop, Ask, Grip, Tray, Down, Call};
ghost use Rattle.burr_code.specs.Meaning.{meaning};
ghost use Rattle.burr_state.specs.Rules.Bench.{running};
ghost use Rattle.burr_state.specs.Rules.Control.{halting, jumping, counting_down, calling, returning};
ghost use Rattle.burr_state.specs.Rules.Next.{at_label};
ghost use Rattle.burr_state.specs.Rules.Numbers.{pushing, loading, storing, adding, subtracting, dropping};
ghost use Rattle.burr_state.specs.Rules.Questions.{asking, picking};
ghost use Rattle.burr_state.specs.Rules.Space.{gripping, choosing_tray};
ghost use Rattle.burr_state.specs.Rules.Step.{Executes};
ghost use Rattle.burr_state.specs.Views.Effects.{CarriedOut, IsRead, next_of, KeepsUnlessGoes, NeverMoves, PiecesStay, StaysFitting, StaysPut, CallerHasRoom, CallerGoesOn, TakesNumber, TakesLabel, IsPicked, PicksAt};
ghost use Rattle.burr_state.specs.Views.Programs.{FitsProgram};
ghost use Rattle.burr_state.specs.Views.StateViews.{IsOrderly, replacing_two};

use crate::effect::{Effect, Mode, Trap};
use crate::program::{Procedure, Program};
use crate::state::BenchState;
use burr_code::limits::MOST_NUMBER;
use burr_code::{Instr, Labels};
use std::mem::replace;

impl BenchState {
    /// Carries out an instruction of this many bytes that moves no piece, in the procedure that
    /// runs; a trap changes nothing.
    #[tactic(auto, using(crate::proofs::Staying::stays_fitting))]
    pub(crate) fn execute(
        &mut self,
        instruction: &Instr<'_>,
        procedure: &Procedure<'_>,
        program: &Program<'_>,
        size: usize,
    ) -> Result<Effect, Trap>
        requires still { MovesNoPiece (meaning instruction.now) }
        requires procedure { slice_get program.now.procedures self.old.running.procedure
            ≡ Some procedure.now }
        requires fits { FitsProgram program.now.procedures self.old }
        requires read { IsRead self.old (meaning instruction.now) size }
        ensures next { (homes : List (List Cell)) → Executes (running homes program.now)
            procedure.now self.old (meaning instruction.now) (next_of result self.new) }
        ensures kept { KeepsUnlessGoes result self.old self.new }
        ensures no_motion { NeverMoves result }
        ensures stays { StaysFitting program.now.procedures self.old self.new }
    {
        // The gripped pieces lie in the current tray, as in each state.
        let _ = &self.grip;
        match instruction {
            Instr::Halt => self.halt(),
            Instr::Push(number) => self.push(*number, size),
            Instr::Load(slot) => self.load(*slot, size),
            Instr::Store(slot) => self.store(*slot, procedure, size),
            Instr::Add => self.add(size),
            Instr::Sub => self.sub(size),
            Instr::Drop => self.drop_top(size),
            Instr::Grip(set) => self.take_grip(*set, size),
            Instr::Tray(tray) => self.choose_tray(*tray, size),
            Instr::Jump(label) => self.jump(*label, procedure),
            Instr::Down(slot, label) => self.down(*slot, *label, procedure, size),
            Instr::Ask(low, high) => self.ask(*low, *high),
            Instr::Pick(labels) => self.pick(labels, procedure),
            Instr::Call(callee) => self.call(*callee, program, size),
            Instr::Ret => self.ret(procedure),
            Instr::Step(_) | Instr::Aside(..) => unreachable!(),
        }
    }

    /// `push`: a number comes on top of the operands.
    fn push(&mut self, number: i16, size: usize) -> Result<Effect, Trap>
        requires { IsRead self.old (Push number) size }
        ensures { CarriedOut (pushing self.old number) result self.old self.new }
    {
        if !self.running.has_room() {
            return Err(Trap::StackFull);
        }
        self.running.push(i32::from(number));
        self.go_after(size);
        Ok(Effect::Goes(None))
    }

    /// `load`: what a slot holds comes on top of the operands.
    fn load(&mut self, slot: u8, size: usize) -> Result<Effect, Trap>
        requires { IsRead self.old (Load slot) size }
        ensures { CarriedOut (loading self.old slot) result self.old self.new }
    {
        let number = self.running.slot(slot).ok_or(Trap::EmptySlot)?;
        if !self.running.has_room() {
            return Err(Trap::StackFull);
        }
        self.running.push(number);
        self.go_after(size);
        Ok(Effect::Goes(None))
    }

    /// `store`: the top of the operands goes into a slot, which is no parameter of the procedure that
    /// runs.
    fn store(&mut self, slot: u8, procedure: &Procedure<'_>, size: usize) -> Result<Effect, Trap>
        requires { IsRead self.old (Store slot) size }
        ensures { CarriedOut (storing procedure.now self.old slot) result self.old self.new }
    {
        if procedure.parameters > slot {
            return Err(Trap::ParamWritten);
        }
        let number = self.running.pop().ok_or(Trap::MissingOperand)?;
        self.running.set_slot(slot, number);
        self.go_after(size);
        Ok(Effect::Goes(None))
    }

    /// `add`: the two topmost operands are replaced by their sum.
    fn add(&mut self, size: usize) -> Result<Effect, Trap>
        requires { IsRead self.old Add size }
        ensures { CarriedOut (adding self.old) result self.old self.new }
    {
        let (top, below) = self.running.top_two().ok_or(Trap::MissingOperand)?;
        self.replace_two(i64::from(below) + i64::from(top), size)
    }

    /// `sub`: the two topmost operands are replaced by their difference, the top taken from the one
    /// below.
    fn sub(&mut self, size: usize) -> Result<Effect, Trap>
        requires { IsRead self.old Sub size }
        ensures { CarriedOut (subtracting self.old) result self.old self.new }
    {
        let (top, below) = self.running.top_two().ok_or(Trap::MissingOperand)?;
        self.replace_two(i64::from(below) - i64::from(top), size)
    }

    /// The step of an instruction of `size` bytes that puts a number in place of the two topmost
    /// operands; it traps with `NumberRange` where operands may not hold that number.
    fn replace_two(&mut self, number: i64, size: usize) -> Result<Effect, Trap>
        requires two { 2 ≤ length self.old.running.operands }
        requires within { self.old.running.pc + size ≤ MOST_CODE }
        ensures { CarriedOut (replacing_two self.old number size) result self.old self.new }
    {
        let most = i64::from(MOST_NUMBER);
        if number < -most || most < number {
            return Err(Trap::NumberRange);
        }
        self.running.replace_two(number as i32);
        self.go_after(size);
        Ok(Effect::Goes(None))
    }

    /// `drop`: the top of the operands goes.
    fn drop_top(&mut self, size: usize) -> Result<Effect, Trap>
        requires { IsRead self.old Drop size }
        ensures { CarriedOut (dropping self.old) result self.old self.new }
    {
        self.running.pop().ok_or(Trap::MissingOperand)?;
        self.go_after(size);
        Ok(Effect::Goes(None))
    }

    /// `halt`: ends the run in main, where all pieces are apart; pc stays.
    fn halt(&mut self) -> Result<Effect, Trap>
        ensures { CarriedOut (halting self.old) result self.old self.new }
    {
        if self.running.procedure != 0 {
            return Err(Trap::Misplaced);
        }
        if !self.are_all_apart() {
            return Err(Trap::NotApart);
        }
        self.mode = Mode::Ended;
        self.steps = self.steps.saturating_add(1);
        Ok(Effect::Goes(None))
    }

    /// `jump`: goes on at a label of the procedure that runs.
    fn jump(&mut self, label: u16, procedure: &Procedure<'_>) -> Result<Effect, Trap>
        ensures { CarriedOut (jumping procedure.now self.old label) result self.old self.new }
    {
        let position = procedure.label(label).ok_or(Trap::BadJump)?;
        self.go_to(position);
        Ok(Effect::Goes(None))
    }

    /// `down`: at 0 it goes on after it, else the slot holds one less and it goes on at a label of
    /// the procedure that runs.
    fn down(
        &mut self,
        slot: u8,
        label: u16,
        procedure: &Procedure<'_>,
        size: usize,
    ) -> Result<Effect, Trap>
        requires { IsRead self.old (Down slot label) size }
        ensures { CarriedOut (counting_down procedure.now self.old slot label) result self.old
            self.new }
    {
        let position = procedure.label(label).ok_or(Trap::BadJump)?;
        if slot < procedure.parameters {
            return Err(Trap::ParamWritten);
        }
        let count = self.running.slot(slot).ok_or(Trap::EmptySlot)?;
        if count < 0 {
            return Err(Trap::BadCount);
        }
        if count == 0 {
            self.go_after(size);
            return Ok(Effect::Goes(None));
        }
        self.running.set_slot(slot, count - 1);
        self.go_to(position);
        Ok(Effect::Goes(None))
    }

    /// `call`: the topmost operands become the first slots of a procedure of a higher number, the
    /// top the last of them.
    fn call(&mut self, callee: u8, program: &Program<'_>, size: usize) -> Result<Effect, Trap>
        requires read { IsRead self.old (Call callee) size }
        requires fits { FitsProgram program.now.procedures self.old }
        ensures next { (homes : List (List Cell))
            → calling (running homes program.now) self.old callee (next_of result self.new) }
        ensures kept { KeepsUnlessGoes result self.old self.new }
        ensures no_motion { NeverMoves result }
        ensures stays { PiecesStay self.old self.new }
        ensures fits { FitsProgram program.now.procedures self.new }
    {
        if callee <= self.running.procedure {
            return Err(Trap::BadCall);
        }
        let Some(procedure) = program.procedure(callee) else {
            return Err(Trap::BadCall);
        };
        let called = self
            .running
            .calls(callee, procedure.parameters, procedure.results)?;
        let mut caller = replace(&mut self.running, called);
        caller.pc += size;
        self.callers.push(caller);
        self.steps = self.steps.saturating_add(1);
        Ok(Effect::Goes(None))
    }

    /// `ret`: the activation of this procedure ends, and its topmost operands, one for each result,
    /// come on top of those of its caller, which goes on.
    fn ret(&mut self, procedure: &Procedure<'_>) -> Result<Effect, Trap>
        requires room { CallerHasRoom procedure.now.results self.old.callers }
        ensures next { returning procedure.now self.old (next_of result self.new) }
        ensures kept { KeepsUnlessGoes result self.old self.new }
        ensures no_motion { NeverMoves result }
        ensures stays { PiecesStay self.old self.new }
        ensures caller { OnOk result (CallerGoesOn self.old self.new) }
    {
        if self.callers.is_empty() {
            return Err(Trap::Misplaced);
        }
        let results = self
            .running
            .top_many(procedure.results)
            .ok_or(Trap::MissingOperand)?;
        let mut caller = self.callers.pop().unwrap();
        caller.push_all(results.as_slice());
        self.running = caller;
        self.steps = self.steps.saturating_add(1);
        Ok(Effect::Goes(None))
    }

    /// `ask`: asks for a number of a range.
    pub(crate) fn ask(&self, low: i16, high: i16) -> Result<Effect, Trap>
        ensures { CarriedOut (asking self.now low high) result self.now self.now }
    {
        if !self.running.has_room() {
            return Err(Trap::StackFull);
        }
        Ok(Effect::Asks(i32::from(low), i32::from(high)))
    }

    /// `pick`: asks for the number of one of the labels.
    pub(crate) fn pick(
        &self,
        labels: &Labels<'_>,
        procedure: &Procedure<'_>,
    ) -> Result<Effect, Trap>
        ensures { CarriedOut (picking procedure.now labels.now) result self.now self.now }
    {
        if !procedure.has_labels(labels) {
            return Err(Trap::BadJump);
        }
        Ok(Effect::Asks(0, labels.len() as i32 - 1))
    }

    /// An answer to `ask`: pushed, where there is room and it fits; else nothing changes. Whether
    /// it is taken.
    pub(crate) fn take_number(&mut self, low: i16, high: i16, answer: i32, size: usize) -> bool
        requires { IsRead self.old (Ask low high) size }
        ensures taken { TakesNumber self.old low high answer result self.new }
        ensures stays { StaysPut self.old self.new }
    {
        if !self.running.has_room() || answer < i32::from(low) || i32::from(high) < answer {
            return false;
        }
        self.running.push(answer);
        self.go_after(size);
        true
    }

    /// An answer to `pick`: the run goes on at the label that it numbers, where all labels are
    /// there and it fits; else nothing changes. Whether it is taken.
    pub(crate) fn take_label(
        &mut self,
        labels: &Labels<'_>,
        procedure: &Procedure<'_>,
        answer: i32,
    ) -> bool
        ensures taken { TakesLabel procedure.now self.old labels.now answer result self.new }
        ensures stays { StaysPut self.old self.new }
    {
        if !procedure.has_labels(labels) {
            return false;
        }
        let Some(position) = picked(labels, procedure, answer) else {
            return false;
        };
        self.go_to(position);
        true
    }

    /// `grip`: the grip becomes a set of pieces of the current tray.
    fn take_grip(&mut self, set: u32, size: usize) -> Result<Effect, Trap>
        requires { IsRead self.old (Grip set) size }
        ensures { CarriedOut (gripping self.old set) result self.old self.new }
    {
        if !self.all_lie_here(set) {
            return Err(Trap::GripOff);
        }
        self.grip = set;
        self.go_after(size);
        Ok(Effect::Goes(None))
    }

    /// `tray`: another tray becomes the current one, and nothing is gripped.
    fn choose_tray(&mut self, tray: u8, size: usize) -> Result<Effect, Trap>
        requires { IsRead self.old (Tray tray) size }
        ensures { CarriedOut (choosing_tray self.old tray) result self.old self.new }
    {
        self.tray = tray;
        self.grip = 0;
        self.go_after(size);
        Ok(Effect::Goes(None))
    }

    /// Makes a step after which the run goes on at a position.
    fn go_to(&mut self, position: u16)
        ensures state { self.new ≡ at_label position self.old.running self.old }
        ensures orderly { IsOrderly self.new }
    {
        self.running.pc = usize::from(position);
        self.steps = self.steps.saturating_add(1);
    }
}

/// The position of the label that an answer numbers; None where it numbers none.
fn picked(labels: &Labels<'_>, procedure: &Procedure<'_>, answer: i32) -> Option<u16>
    ensures { MatchOption result
        (¬ IsPicked procedure.now.labels labels.now answer)
        (λ to. PicksAt procedure.now.labels labels.now answer to) }
{
    let number = usize::try_from(answer).ok()?;
    procedure.label(labels.get(number)?)
}
