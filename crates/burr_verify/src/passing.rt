//! The pass over a procedure's code and frames.

ghost use Rattle.std.specs.Prelude.{◌≡◌, ◌≢◌, ◌<◌, ◌≤◌, ◌+◌, ◌^◌, List, Some, IsSome, IfOk, MatchResult, length};
ghost use Rattle.burr_assembly.specs.Rules.Homes.{homes_of};
ghost use Rattle.burr_blocking.specs.Rules.Counted.{HasCounted};
ghost use Rattle.burr_code.specs.declared.limits.TheConstants.{MOST_CODE};
ghost use Rattle.burr_voxels.specs.declared.cell.Cell.{Cell};
ghost use Rattle.burr_frames.specs.Views.Here.{OfFramedProcedure};
ghost use Rattle.burr_container.specs.Views.Refs.{frame_of};
ghost use Rattle.burr_frames.specs.Rules.FramedPlans.{framed};
ghost use Rattle.burr_frames.specs.Rules.States.{AbstractState, state_of};
ghost use Rattle.burr_frames.specs.Views.ArrivalViews.{arrival_verdict};
ghost use Rattle.burr_verify.specs.Views.LookViews.{LooksOn, LooksInto, LooksStop, HasRoomBefore, HasRoomyFrames};
ghost use Rattle.burr_verify.specs.Rules.Pass.{BeforeInstruction, AtInstruction, pass_start};
ghost use Rattle.burr_verify.specs.Rules.PassLooks.{LookedPass};
ghost use Rattle.burr_verify.specs.Views.Judgements.{judgement_of, ArrivesIfAny};

use crate::laws::an_assembly_has_few_pieces;
use crate::refusal::Refusal;
use crate::states::{Successor, label_within, transfer};
use burr_blocking::{Blocking, Looks};
use burr_code::fetch;
use burr_container::{FrameRef, ProcedureRef};
use burr_frames::{Miss, Rule, State};

/// Judges a procedure's code in one pass from its first byte, with one state at a time. The boxes
/// of its frames have at most 4,096 points, and the count of looks leaves room for 2^32 more, as
/// many as 4,096 bytes of code can ask for: the caller's conditions.
#[inline(never)]
pub fn judge_code<B: Blocking>(
    procedure: ProcedureRef<'_, '_>,
    looks: &mut Looks<'_, B>,
) -> Result<(), Refusal>
    requires framed { HasRoomyFrames procedure }
    requires room { looks.old.count + 2 ^ 32 ≤ 2 ^ 40 }
    ensures passed { OfFramedProcedure procedure.entry (λ plan here. HasCounted
        (LookedPass (homes_of looks.old.assembly) plan procedure.entry.number here pass_start
        (judgement_of result))
        looks.old looks.new) }
    ensures few { looks.new.count ≤ looks.old.count + 2 ^ 32 }
    ensures same { looks.new.assembly ≡ looks.old.assembly }
{
    an_assembly_has_few_pieces(looks.assembly());
    let size = procedure.code().len();
    let mut last = 0;
    let mut pc = 0;
    let mut state = None;
    while pc < size {
        enter(procedure, last, pc, &mut state)?;
        let next = judge_at(procedure, pc, &mut state, looks)?;
        last = pc;
        pc = next;
    }
    match state {
        None => Ok(()),
        Some(_) => Err(Refusal::plain(procedure.number(), last as u16, Rule::UnendedCode)),
    }
}

/// Takes the state that falls in at pc, if one does, to the state before the instruction there: that
/// of the frame at pc, at which what falls in arrives, or what falls in itself. What falls in falls
/// out of the instruction at `last`.
#[inline(never)]
fn enter(
    procedure: ProcedureRef<'_, '_>,
    last: usize,
    pc: usize,
    state: &mut Option<State>,
) -> Result<(), Refusal>
    requires short { pc < MOST_CODE }
    requires rising { last ≤ pc }
    requires framed { HasRoomyFrames procedure }
    requires room { HasRoomBefore state.old }
    ensures passes { (homes : List (List Cell)) → OfFramedProcedure procedure.entry (λ plan here.
        pc ≢ length here.code → MatchResult result
        (λ _. LooksInto homes plan procedure.entry.number here
        (BeforeInstruction last pc state.old) pc state.new)
        (λ r. LooksStop homes plan procedure.entry.number here
        (BeforeInstruction last pc state.old) r 0)) }
    ensures there { IfOk result (λ _. IsSome state.new) }
    ensures room { IfOk result (λ _. HasRoomBefore state.new) }
{
    match label_within(procedure, pc, pc + 1) {
        None if state.is_some() => Ok(()),
        None => Err(Refusal::plain(procedure.number(), pc as u16, Rule::MissingFrame)),
        Some(label) => match enter_frame(&procedure.frame(label), state) {
            Ok(()) => Ok(()),
            Err(miss) => Err(Refusal {
                point: miss.point,
                ..Refusal::plain(procedure.number(), last as u16, Rule::FrameMissed)
            }),
        },
    }
}

/// Takes the state that falls in, if one does, to that of a frame, at which it arrives. On its own,
/// since the states that it holds are made room for, and few instructions stand at a label.
#[inline(never)]
fn enter_frame(frame: &FrameRef<'_>, state: &mut Option<State>) -> Result<(), Miss>
    ensures verdict { ArrivesIfAny state.old (framed (frame_of frame.now))
        (arrival_verdict result) }
    ensures there { IfOk result (λ _. state.new ≡ Some (state_of (framed (frame_of frame.now)))) }
{
    let there = match state {
        None => State::of(frame),
        Some(before) => before.arrive(frame)?,
    };
    *state = Some(there);
    Ok(())
}

/// Judges the instruction at pc in this state: the place after it. The state is then the one that
/// falls out of it, if one does. The looks of its rule are counted, at most 2^20. There is a state,
/// with at most 4,096 points, the assembly has at most 32 pieces, and at most 2^40 looks were made
/// so far: the caller's conditions.
#[inline(never)]
fn judge_at<B: Blocking>(
    procedure: ProcedureRef<'_, '_>,
    pc: usize,
    state: &mut Option<State>,
    looks: &mut Looks<'_, B>,
) -> Result<usize, Refusal>
    requires short { pc < MOST_CODE }
    requires framed { HasRoomyFrames procedure }
    requires there { IsSome state.old }
    requires points { HasRoomBefore state.old }
    requires few_pieces { length looks.old.assembly.pieces ≤ 32 }
    requires room { looks.old.count ≤ 2 ^ 40 }
    ensures after { IfOk result (λ next. pc < next) }
    ensures within { OfFramedProcedure procedure.entry (λ plan here.
        IfOk result (λ next. next ≤ length here.code)) }
    ensures passes { (s : AbstractState) → state.old ≡ Some s
        → OfFramedProcedure procedure.entry (λ plan here. HasCounted (λ n.
        MatchResult result
        (λ next. LooksOn (homes_of looks.old.assembly) plan procedure.entry.number here
        (AtInstruction pc s) (BeforeInstruction pc next state.new) n)
        (λ r. LooksStop (homes_of looks.old.assembly) plan procedure.entry.number here
        (AtInstruction pc s) r n))
        looks.old looks.new) }
    ensures points { IfOk result (λ _. HasRoomBefore state.new) }
    ensures few { looks.new.count ≤ looks.old.count + 2 ^ 20 }
    ensures same { looks.new.assembly ≡ looks.old.assembly }
{
    let Some((instruction, size)) = fetch(procedure.code(), pc) else {
        return Err(Refusal::plain(procedure.number(), pc as u16, Rule::BadCode));
    };
    if label_within(procedure, pc + 1, pc + size).is_some() {
        return Err(Refusal::plain(procedure.number(), pc as u16, Rule::BadLabel));
    }
    let Some(before) = state else {
        unreachable!();
    };
    match transfer(before, &instruction, procedure, looks) {
        Ok(Successor::FallsThrough) => Ok(pc + size),
        Ok(Successor::None) => {
            *state = None;
            Ok(pc + size)
        }
        Err(broken) => Err(Refusal::of(procedure.number(), pc as u16, broken)),
    }
}
