ghost use Rattle.std.specs.Prelude.{◌≡◌, ◌↔◌, ◌≤◌, IsOk, IfOk, IfErr, length, ◌<◌, ◌+◌, IsTrue, Some, None, slice_get, get_or, reverse, Ok, OnOk, ◌≢◌, IfSome};
ghost use Rattle.burr_voxels.specs.Near.{IsWithin};
ghost use Rattle.burr_code.specs.declared.limits.TheConstants.{MOST_CODE, MOST_BUDGET, MOST_OFFSET, SLOTS};
ghost use Rattle.burr_code.specs.Instruction.{Step, Aside, spelled};
ghost use Rattle.burr_code.specs.Meaning.{meaning};
ghost use Rattle.burr_code.specs.PieceSets.{IsInSet};
ghost use Rattle.burr_assembly.specs.Rules.Text.{IsAssembly};
ghost use Rattle.burr_assembly.specs.Rules.Homes.{homes_of};
ghost use Rattle.burr_container.specs.Rules.Plans.{Plan};
ghost use Rattle.burr_container.specs.Views.Containers.{IsContainer};
ghost use Rattle.burr_state.specs.Rules.Bench.{bare_program};
ghost use Rattle.burr_state.specs.Views.Programs.{plan_program};
ghost use Rattle.burr_state.specs.Views.StateViews.{at_start, IsOffsetHere};
ghost use Rattle.burr_state.specs.Views.Benches.{IsAtStart, setup_of, GoesOn, IsSameRun, motion_in};
ghost use Rattle.burr_state.specs.declared.effect.Mode.TheVariants.{Ended, Running};
ghost use Rattle.burr_state.specs.Views.Offsets.{PositionHolds};
ghost use Rattle.burr_state.specs.Views.Work.{work, IsNext};
ghost use Rattle.burr_state.specs.Rules.Step.{CallIn, NextIs, Called};
ghost use Rattle.burr_state.specs.Views.Effects.{next_of, KeepsUnlessGoes, motion_made};
ghost use Rattle.burr_verify.specs.Rules.Fitting.{FitsAssembly};
ghost use Rattle.burr_verify.specs.Views.Refusals.{another_assembly};
ghost use Rattle.burr_bench.specs.BenchViews.{Follows, SetsOut, GripPasses};
ghost use Rattle.burr_bench.specs.Ways.{query_of, setting_out, PassesPiece, PassesRest};

use burr_assembly::Assembly;
use burr_blocking::{Blocking, Query};
use burr_code::{Instr, Placement, is_in_set};
use burr_container::Container;
use burr_state::{Bench, Effect, Mode, Progress, Trap, one_unit_on};
use burr_verify::{Refusal, fits_assembly};
use burr_voxels::{Cell, Direction};
use std::marker::Model;

/// The bench at work on a program, each move tested first; `blocking` tells whether pieces of the
/// assembly meet.
#[derive(Drop)]
pub struct Checked<'a, B: Blocking> {
    bench: Bench<'a>,
    blocking: &'a B,
}

impl<'a, B: Blocking> Model for Checked<'a, B> {
    ghost use Rattle.burr_state.specs.Views.Benches.{Benched, benched};
    ghost use Rattle.burr_bench.specs.Sound.{IsSound};

    ghost Value = { Benched };

    ghost view = { λ c. benched (B.subject c.blocking.now) c.bench.program c.bench.state };

    ghost invariant = { λ c.
        IsSound (benched (B.subject c.blocking.now) c.bench.program c.bench.state) };
}

impl<'a, B: Blocking> Checked<'a, B> {
    /// The bench at the start of a container's plan: all pieces in tray 0 at home, nothing gripped.
    /// A plan for another assembly is refused by V1, and nothing else is judged.
    pub fn start<'c: 'a>(
        container: &Container<'c>,
        blocking: &'a B,
    ) -> Result<Checked<'a, B>, Refusal>
        ensures fits { (p : Plan) → IsContainer container.entry.now p
            → (IsOk result ↔ FitsAssembly p (B.subject blocking.entry.now)) }
        ensures refusal { IfErr result (λ refusal. refusal ≡ another_assembly) }
        ensures assembly { IfOk result (λ bench. bench.assembly ≡ B.subject blocking.entry.now) }
        ensures program { IfOk result (λ bench. (p : Plan) → IsContainer container.entry.now p
            → bench.program ≡ plan_program p) }
        ensures start { IfOk result IsAtStart }
    {
        fits_assembly(container, blocking.assembly())?;
        let pieces = blocking.assembly().piece_count();
        Ok(Checked::of(Bench::of(container, pieces), blocking))
    }

    /// The bench at the start of bare code: one procedure of at most 4,096 bytes, without labels;
    /// all pieces in tray 0 at home, nothing gripped.
    pub fn bare(code: &'a [u8], blocking: &'a B) -> Checked<'a, B>
        requires { length code.now ≤ MOST_CODE }
        ensures assembly { result.assembly ≡ B.subject blocking.entry.now }
        ensures program { result.program ≡ bare_program code.entry.now }
        ensures start { IsAtStart result }
    {
        let pieces = blocking.assembly().piece_count();
        Checked::of(Bench::bare(code, pieces), blocking)
    }

    /// The bench at the start of a program, with all pieces of the assembly.
    fn of(bench: Bench<'a>, blocking: &'a B) -> Checked<'a, B>
        requires whole { IsAssembly (B.subject blocking.now) }
        requires start { bench.state ≡ at_start (length (B.subject blocking.now).pieces) }
        ensures assembly { result.assembly ≡ B.subject blocking.entry.now }
        ensures program { result.program ≡ bench.entry.program }
        ensures start { IsAtStart result }
    {
        Checked { bench, blocking }
    }
}

impl<'a, B: Blocking> Checked<'a, B> {
    /// The program at work, and where its run stands.
    pub fn bench(&self) -> &Bench<'a>
        ensures { result.now ≡ work self.now.program self.now.state }
    {
        &self.bench
    }

    /// The steps made so far; the count stays at its greatest value.
    pub fn steps(&self) -> u64
        ensures { result ≡ self.now.state.steps }
    {
        self.bench.state().steps()
    }

    /// Whether `halt` was made.
    pub fn ended(&self) -> bool
        ensures { IsTrue result ↔ (self.now.state.mode ≡ Ended) }
    {
        self.bench.state().mode() == Mode::Ended
    }

    /// The most steps that a run of it makes.
    pub fn budget(&self) -> u32
        ensures budget { result ≡ self.now.program.budget }
        ensures few { result ≤ MOST_BUDGET }
    {
        self.bench.budget()
    }

    /// The assembly whose pieces are moved.
    pub fn assembly(&self) -> &'a Assembly
        ensures assembly { result.now ≡ self.now.assembly }
        ensures whole { IsAssembly self.now.assembly }
    {
        self.blocking.assembly()
    }

    /// Where a piece is: apart, or in a tray, 0 to 31, and how far from home it lies there. Its
    /// number is below the count of pieces, the caller's condition.
    pub fn place(&self, piece: u8) -> Placement<Cell>
        requires { piece < length self.now.assembly.pieces }
        ensures place { slice_get self.now.state.places piece ≡ Some result }
        ensures near { PositionHolds (IsWithin MOST_OFFSET) result }
    {
        self.bench.state().place(piece)
    }

    /// The current tray, 0 to 31.
    pub fn tray(&self) -> u8
        ensures { result ≡ self.now.state.tray }
    {
        self.bench.state().tray()
    }

    /// The pieces of the current tray that are gripped: bit p is piece p.
    pub fn grip(&self) -> u32
        ensures { result ≡ self.now.state.grip }
    {
        self.bench.state().grip()
    }

    /// The number of activations: the running one and those that wait for it.
    pub fn depth(&self) -> usize
        ensures { result ≡ length self.now.state.callers + 1 }
    {
        self.bench.state().depth()
    }

    /// The number of the running procedure.
    pub fn proc(&self) -> u8
        ensures { result ≡ self.now.state.running.procedure }
    {
        self.bench.state().procedure()
    }

    /// Where the next instruction stands in the running procedure's code.
    pub fn pc(&self) -> u16
        ensures { result ≡ self.now.state.running.pc }
    {
        self.bench.state().pc() as u16
    }

    /// The value of a slot of the running activation; None where it is empty. Slots are numbered
    /// from 0 to 7, the caller's condition.
    pub fn slot(&self, slot: u8) -> Option<i32>
        requires { slot < SLOTS }
        ensures { result ≡ get_or self.now.state.running.slots slot None }
    {
        self.bench.state().slot(slot)
    }

    /// The operands of the running activation, the bottom first.
    pub fn operands(&self) -> &[i32]
        ensures { result.now ≡ reverse self.now.state.running.operands }
    {
        self.bench.state().operands()
    }
}

// Answers of the operator.
impl<B: Blocking> Checked<'_, B> {
    /// Takes an answer where the next instruction asks for it and it fits; else it is passed over,
    /// and nothing changes.
    pub(crate) fn take(&mut self, answer: i32) -> Progress
        ensures called { CallIn Running (setup_of self.old) self.old.state
            (Some answer) (Ok result) self.new.state }
        ensures same { IsSameRun self.old self.new }
        ensures goes_on { GoesOn self.old self.new None }
    {
        if self.bench.take(answer) {
            Progress::Went(None)
        } else {
            Progress::Again
        }
    }
}

impl<B: Blocking> Checked<'_, B> {
    /// One call of the bench. A running bench carries out the next instruction, or tells what it
    /// asks for; a trap changes nothing, is no step, and is answered by every later call, as the
    /// end is. An answer is taken where it fits the question; else it is passed over, and nothing
    /// changes.
    pub fn step(&mut self, answer: Option<i32>) -> Result<Progress, Trap>
        ensures called { Called (setup_of self.old) self.old.state answer result self.new.state }
        ensures same { IsSameRun self.old self.new }
        ensures goes_on { OnOk result (GoesOn self.old self.new (motion_in result)) }
    {
        match (self.bench.state().mode(), answer) {
            (Mode::Running, None) => self.go_on(),
            (Mode::Running, Some(answer)) => Ok(self.take(answer)),
            (Mode::Ended, _) => Ok(Progress::Ended),
            (Mode::Trapped(trap), _) => Err(trap),
        }
    }

    /// Carries out the next instruction, and keeps its trap.
    fn go_on(&mut self) -> Result<Progress, Trap>
        ensures called { CallIn Running (setup_of self.old) self.old.state
            None result self.new.state }
        ensures same { IsSameRun self.old self.new }
        ensures goes_on { OnOk result (GoesOn self.old self.new (motion_in result)) }
    {
        match self.carry_out() {
            Ok(Effect::Goes(motion)) => Ok(Progress::Went(motion)),
            Ok(Effect::Asks(low, high)) => Ok(Progress::Asks(low, high)),
            Err(trap) => {
                self.bench.trap(trap);
                Err(trap)
            }
        }
    }

    /// Carries out the next instruction; a trap or a question changes nothing.
    fn carry_out(&mut self) -> Result<Effect, Trap>
        ensures next { NextIs (setup_of self.old) self.old.state (next_of result self.new.state) }
        ensures kept { KeepsUnlessGoes result self.old self.new }
        ensures same { IsSameRun self.old self.new }
        ensures goes_on { OnOk result (GoesOn self.old self.new (motion_made result)) }
    {
        let Some((instruction, size)) = self.bench.next() else {
            return Err(Trap::BadCode);
        };
        self.perform(&instruction, size)
    }

    /// Carries out the instruction that stands next, of this many bytes.
    fn perform(&mut self, instruction: &Instr<'_>, size: usize) -> Result<Effect, Trap>
        requires { IsNext (work self.old.program self.old.state) (meaning instruction.now) size }
        ensures next { NextIs (setup_of self.old) self.old.state (next_of result self.new.state) }
        ensures kept { KeepsUnlessGoes result self.old self.new }
        ensures same { IsSameRun self.old self.new }
        ensures goes_on { OnOk result (GoesOn self.old self.new (motion_made result)) }
    {
        match instruction {
            Instr::Step(direction) => self.move_grip(*direction, size),
            Instr::Aside(direction, tray) => self.aside(*direction, *tray, size),
            other => self.bench.execute(other, size),
        }
    }

    /// `step`: the grip goes one unit along a direction, where each piece of the current tray is
    /// then on the bench and no two of them overlap.
    fn move_grip(&mut self, direction: Direction, size: usize) -> Result<Effect, Trap>
        requires within { self.old.state.running.pc + size ≤ MOST_CODE }
        requires size { size ≡ length (spelled (Step direction)) }
        ensures follows { Follows self.old self.new (Step direction) result }
        ensures kept { KeepsUnlessGoes result self.old self.new }
        ensures same { IsSameRun self.old self.new }
        ensures goes_on { OnOk result (GoesOn self.old self.new (motion_made result)) }
    {
        let state = self.bench.state();
        if state.grip() == 0 {
            return Err(Trap::BadGroup);
        }
        if !state.stays_on_bench(direction) {
            return Err(Trap::OffBench);
        }
        if !self.passes(Way::Unit(direction)) {
            return Err(Trap::Collision);
        }
        let motion = self.bench.move_grip(direction, size);
        Ok(Effect::Goes(Some(motion)))
    }

    /// `aside`: takes the grip out along a direction, to an empty tray, where it is free of the
    /// rest of the current tray. A group of one piece is apart.
    fn aside(&mut self, direction: Direction, tray: u8, size: usize) -> Result<Effect, Trap>
        requires within { self.old.state.running.pc + size ≤ MOST_CODE }
        requires size { size ≡ length (spelled (Aside direction tray)) }
        ensures follows { Follows self.old self.new (Aside direction tray) result }
        ensures kept { KeepsUnlessGoes result self.old self.new }
        ensures same { IsSameRun self.old self.new }
        ensures goes_on { OnOk result (GoesOn self.old self.new (motion_made result)) }
    {
        let state = self.bench.state();
        if !state.is_part_gripped() {
            return Err(Trap::BadGroup);
        }
        if !state.is_empty(tray) {
            return Err(Trap::TrayInUse);
        }
        if !self.passes(Way::Out(direction)) {
            return Err(Trap::NotFree);
        }
        let motion = self.bench.go_aside(direction, tray, size);
        Ok(Effect::Goes(Some(motion)))
    }
}

/// A way for the grip to go: one unit along a direction, or all the way out along it.
#[derive(Clone, Copy)]
pub enum Way {
    Unit(Direction),
    Out(Direction),
}

impl Way {
    /// The query that tells whether a gripped piece goes this way past another one of the tray.
    pub fn query(self) -> Query
        ensures { result ≡ query_of self }
    {
        match self {
            Way::Unit(_) => Query::Overlap,
            Way::Out(direction) => Query::Exit(direction),
        }
    }

    /// The offset for which the query of a piece at this offset is made: after its one unit, or
    /// where it sets out.
    pub fn setting_out(self, offset: Cell) -> Cell
        requires { IsWithin MOST_OFFSET offset }
        ensures { result ≡ setting_out self offset }
    {
        match self {
            Way::Unit(direction) => one_unit_on(offset, direction),
            Way::Out(_) => offset,
        }
    }
}

impl<B: Blocking> Checked<'_, B> {
    /// Whether the grip goes its way past the rest of its tray.
    pub(crate) fn passes(&self, way: Way) -> bool
        requires { SetsOut self.now way }
        ensures { IsTrue result ↔ GripPasses self.now way }
    {
        for piece in 0..self.piece_count() {
            if is_in_set(self.grip(), piece) && !self.passes_rest(piece, way) {
                return false;
            }
        }
        true
    }

    /// Whether a gripped piece goes its way past the rest of its tray.
    fn passes_rest(&self, piece: u8, way: Way) -> bool
        requires piece { piece < length self.now.assembly.pieces }
        requires gripped { IsInSet self.now.state.grip piece }
        requires sets_out { SetsOut self.now way }
        ensures { IsTrue result ↔ PassesRest way (homes_of self.now.assembly)
            self.now.state.places self.now.state.tray self.now.state.grip piece }
    {
        let Some(offset) = self.offset_here(piece) else {
            return true;
        };
        let query = way.query();
        let from = way.setting_out(offset);
        for other in 0..self.piece_count() {
            if !is_in_set(self.grip(), other) && !self.passes_piece(piece, from, other, query) {
                return false;
            }
        }
        true
    }

    /// Whether a piece, taken to be at the offset `from` in the current tray, keeps clear of
    /// another piece, if that lies in the tray.
    fn passes_piece(&self, piece: u8, from: Cell, other: u8, query: Query) -> bool
        requires piece { piece < length self.now.assembly.pieces }
        requires other { other < length self.now.assembly.pieces }
        requires two { piece ≢ other }
        requires near { IsWithin MOST_OFFSET from }
        ensures { IsTrue result ↔ PassesPiece query (homes_of self.now.assembly)
            self.now.state.places self.now.state.tray piece from other }
    {
        match self.offset_here(other) {
            None => true,
            Some(there) => self.blocking.clears(query, piece, other, from - there),
        }
    }

    /// How far from home a piece lies in the current tray; None where it isn't there.
    fn offset_here(&self, piece: u8) -> Option<Cell>
        ensures offset { IsOffsetHere self.now.state piece result }
        ensures near { IfSome result (IsWithin MOST_OFFSET) }
    {
        self.bench.state().offset_here(piece)
    }

    /// The number of pieces.
    fn piece_count(&self) -> u8
        ensures pieces { result ≡ length self.now.assembly.pieces }
        ensures places { result ≡ length self.now.state.places }
        ensures few { result ≤ 32 }
    {
        self.bench.state().piece_count()
    }
}
