//! States from one instruction to the next: those of a pass at one place, for who tells of a refusal,
//! where labels stand, and the rule of an instruction.

ghost use Rattle.std.specs.Prelude.{◌≡◌, ◌<◌, ◌≤◌, ◌^◌, List, Option, Some, IfSome, length, slice_get};
ghost use Rattle.burr_voxels.specs.declared.cell.Cell.{Cell};
ghost use Rattle.burr_assembly.specs.Rules.Homes.{homes_of};
ghost use Rattle.burr_blocking.specs.Rules.Counted.{HasCounted};
ghost use Rattle.burr_code.specs.Instruction.{IsInRange, MovesNoPiece};
ghost use Rattle.burr_code.specs.Meaning.{meaning};
ghost use Rattle.burr_container.specs.Views.Lent.{LentHasLabel, OfLent};
ghost use Rattle.burr_frames.specs.Rules.Looks.{HasRoom, RuleLooks};
ghost use Rattle.burr_frames.specs.Rules.States.{AbstractState};
ghost use Rattle.burr_frames.specs.Rules.Transfer.{Transfer};
ghost use Rattle.burr_frames.specs.Rules.Verdicts.{Verdict};
ghost use Rattle.burr_frames.specs.Views.Breaks.{next_verdict, last_verdict};
ghost use Rattle.burr_frames.specs.Views.Here.{OfFramedProcedure};
ghost use Rattle.burr_verify.specs.Rules.Fronts.{ComesTo, GoesOver};
ghost use Rattle.burr_verify.specs.Rules.WellFramed.{Enters, FallsOut};
ghost use Rattle.burr_verify.specs.Views.Judgements.{AreBefore, IsLabelWithin, NamesNoRule, verdict_of};

use crate::laws::a_container_has_a_plan;
use burr_blocking::{Blocking, Looks};
use burr_code::{Instr, fetch};
use burr_container::ProcedureRef;
use burr_frames::{Break, State};

/// The state in which the pass over a procedure comes to the instruction at a place of its code. Where
/// it does not come there, because a rule is broken before, the answer may be any. No look is made.
pub fn state_before(procedure: ProcedureRef<'_, '_>, pc: u16) -> Option<State>
    ensures { OfFramedProcedure procedure.entry (λ plan here. (homes : List (List Cell))
        (s : AbstractState)
        → ComesTo homes plan procedure.entry.number here pc s → result ≡ Some s) }
{
    let mut state = None;
    let mut at = 0;
    while at < usize::from(pc) {
        let (instruction, size) = fetch(procedure.code(), at)?;
        enter(procedure, at, &mut state);
        go_over(&mut state, &instruction, procedure);
        at += size;
    }
    enter(procedure, usize::from(pc), &mut state);
    state
}

/// The state that falls out of the instruction at a place of a procedure's code, where the pass goes
/// over it; None where none does. Where a rule is broken before, the answer may be any; where it is
/// broken there since pieces are in each other's way, they are where they would come to. No look is
/// made.
pub fn state_after(procedure: ProcedureRef<'_, '_>, pc: u16) -> Option<State>
    ensures { OfFramedProcedure procedure.entry (λ plan here. (homes : List (List Cell))
        (out : Option AbstractState)
        → GoesOver homes plan procedure.entry.number here pc out → result ≡ out) }
{
    let (instruction, _size) = fetch(procedure.code(), usize::from(pc))?;
    let mut state = state_before(procedure, pc);
    go_over(&mut state, &instruction, procedure);
    state
}

/// Leaves the state in which the pass comes to the instruction at a place into which this one falls,
/// if one does: that of the frame there, or else this one.
fn enter(procedure: ProcedureRef<'_, '_>, at: usize, state: &mut Option<State>)
    requires { at < 2 ^ 16 }
    ensures { OfFramedProcedure procedure.entry (λ plan here. (s : AbstractState)
        → Enters here at state.old s → state.new ≡ Some s) }
{
    // The plan is within the format, so that one frame at most stands at a place.
    a_container_has_a_plan(procedure.container());
    match label_within(procedure, at, at + 1) {
        Some(label) => *state = Some(State::of(&procedure.frame(label))),
        None => {}
    }
}

/// Leaves the state that falls out of an instruction, if one does, where its rule holds of this one.
fn go_over(state: &mut Option<State>, instruction: &Instr<'_>, procedure: ProcedureRef<'_, '_>)
    requires { IsInRange (meaning instruction.now) }
    ensures { OfFramedProcedure procedure.entry (λ plan here. (homes : List (List Cell))
        (s : AbstractState) (verdict : Verdict) (out : Option AbstractState)
        → state.old ≡ Some s
        → Transfer homes plan procedure.entry.number here s (meaning instruction.now) verdict
        → FallsOut verdict out → state.new ≡ out) }
{
    let Some(before) = state else {
        return;
    };
    match transfer_freely(before, instruction, procedure) {
        Ok(Successor::FallsThrough) => {}
        Ok(Successor::None) | Err(_) => *state = None,
    }
}

// Labels by their places.

/// The first label of a procedure at a place from `from` on and before `end`; None where there is
/// no such label.
pub fn label_within(procedure: ProcedureRef<'_, '_>, from: usize, end: usize) -> Option<usize>
    ensures has { IfSome result (LentHasLabel procedure.entry) }
    ensures found { OfFramedProcedure procedure.entry (λ plan here.
        IsLabelWithin here from end result) }
{
    let label = count_before(procedure, from);
    if label < count_before(procedure, end) {
        return Some(label);
    }
    None
}

/// How many labels of a procedure stand before a place; they stand at rising places, so it is found
/// by bisection.
fn count_before(procedure: ProcedureRef<'_, '_>, place: usize) -> usize
    ensures few { IfSome (slice_get procedure.entry.container.now.procedures procedure.entry.number)
        (λ p. result ≤ length p.labels.starts) }
    ensures many { OfLent procedure.entry (λ p q. result ≤ length q.labels) }
    ensures before { OfFramedProcedure procedure.entry (λ plan here. AreBefore here place result) }
{
    // The plan is within the format, so that its labels stand at rising places.
    a_container_has_a_plan(procedure.container());
    let count = procedure.label_count();
    let mut low = 0;
    let mut high = count;
    while low < high {
        let middle = low + (high - low) / 2;
        if usize::from(procedure.label(middle)) < place {
            low = middle + 1;
        } else {
            high = middle;
        }
    }
    low
}

// The rule of an instruction.

/// How control leaves an instruction: it falls out of it with a state, or no state is left after.
#[derive(Clone, Copy)]
pub enum Successor {
    FallsThrough,
    None,
}

/// Changes the state before an instruction of a procedure to the one after it, or tells which of
/// the instruction's checks fails first, and where. The looks are counted that its rule has. The
/// state has at most 4,096 points, and at most 2^40 looks were made so far, the caller's
/// conditions.
#[inline(never)]
pub fn transfer<B: Blocking>(
    state: &mut State,
    instruction: &Instr<'_>,
    procedure: ProcedureRef<'_, '_>,
    looks: &mut Looks<'_, B>,
) -> Result<Successor, Break>
    requires in_range { IsInRange (meaning instruction.now) }
    requires points { HasRoom state.old }
    requires room { looks.old.count ≤ 2 ^ 40 }
    ensures verdict { OfFramedProcedure procedure.entry (λ plan here.
        Transfer (homes_of looks.old.assembly) plan procedure.entry.number here state.old
        (meaning instruction.now) (verdict_of state.new result)) }
    ensures counted { HasCounted
        (RuleLooks (homes_of looks.old.assembly) state.old (meaning instruction.now))
        looks.old looks.new }
{
    match instruction {
        Instr::Step(direction) => falls_through(state.step(looks, *direction)),
        Instr::Aside(direction, tray) => falls_through(state.aside(looks, *direction, *tray)),
        _ => transfer_in_place(state, instruction, procedure),
    }
}

/// The same of an instruction that moves no piece, the caller's condition, so that its rule has no
/// look.
fn transfer_in_place(
    state: &mut State,
    instruction: &Instr<'_>,
    procedure: ProcedureRef<'_, '_>,
) -> Result<Successor, Break>
    requires in_range { IsInRange (meaning instruction.now) }
    requires in_place { MovesNoPiece (meaning instruction.now) }
    ensures { (homes : List (List Cell)) → OfFramedProcedure procedure.entry (λ plan here.
        Transfer homes plan procedure.entry.number here state.old (meaning instruction.now)
        (verdict_of state.new result)) }
{
    match instruction {
        Instr::Halt => has_no_successor(state.halt(procedure)),
        Instr::Push(number) => falls_through(state.push(*number)),
        Instr::Load(slot) => falls_through(state.load(*slot)),
        Instr::Store(slot) => falls_through(state.store(procedure, *slot)),
        Instr::Add => falls_through(state.add()),
        Instr::Sub => falls_through(state.sub()),
        Instr::Drop => falls_through(state.drop_top()),
        Instr::Grip(group) => falls_through(state.take_grip(*group)),
        Instr::Step(_) | Instr::Aside(..) => unreachable!(),
        Instr::Tray(tray) => falls_through(state.turn_to(*tray)),
        Instr::Jump(label) => has_no_successor(state.jump(procedure, *label)),
        Instr::Down(slot, label) => falls_through(state.down(procedure, *slot, *label)),
        Instr::Ask(low, high) => falls_through(state.ask(*low, *high)),
        Instr::Pick(labels) => has_no_successor(state.pick(procedure, labels)),
        Instr::Call(callee) => falls_through(state.call(procedure, *callee)),
        Instr::Ret => has_no_successor(state.ret(procedure)),
    }
}

/// Changes the state before an instruction of a procedure, whose rule holds, to the one after it. No
/// look is made: where pieces are in each other's way, they are where they would come to.
#[inline(never)]
pub fn transfer_freely(
    state: &mut State,
    instruction: &Instr<'_>,
    procedure: ProcedureRef<'_, '_>,
) -> Result<Successor, Break>
    requires in_range { IsInRange (meaning instruction.now) }
    ensures { OfFramedProcedure procedure.entry (λ plan here. (homes : List (List Cell))
        (verdict : Verdict)
        → Transfer homes plan procedure.entry.number here state.old (meaning instruction.now)
        verdict
        → NamesNoRule verdict → verdict_of state.new result ≡ verdict) }
{
    match instruction {
        Instr::Step(direction) => falls_through(state.step_freely(*direction)),
        Instr::Aside(_, tray) => falls_through(state.aside_freely(*tray)),
        _ => transfer_in_place(state, instruction, procedure),
    }
}

/// Control falls out, where no rule is broken.
fn falls_through(kept: Result<(), Break>) -> Result<Successor, Break>
    ensures { (s : AbstractState) → verdict_of s result ≡ next_verdict s kept }
{
    kept?;
    Ok(Successor::FallsThrough)
}

/// No state is left after, where no rule is broken.
fn has_no_successor(kept: Result<(), Break>) -> Result<Successor, Break>
    ensures { (s : AbstractState) → verdict_of s result ≡ last_verdict kept }
{
    kept?;
    Ok(Successor::None)
}
