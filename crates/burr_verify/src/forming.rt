//! Frames by themselves: what each has to keep, wherever control comes to it.

ghost use Rattle.std.specs.Prelude.{◌≡◌, ◌<◌, ◌≤◌, ◌↔◌, ℕ, IsTrue, Some, IsSomeAnd, slice_get};
ghost use Rattle.burr_code.specs.declared.limits.TheConstants.{MOST_PARAMETERS};
ghost use Rattle.burr_code.specs.Places.{AllLieIn, count_in};
ghost use Rattle.burr_container.specs.Rules.Plans.{Frame};
ghost use Rattle.burr_container.specs.Views.Refs.{frame_of};
ghost use Rattle.burr_container.specs.Views.Lent.{LentHasLabel};
ghost use Rattle.burr_frames.specs.Rules.FramedPlans.{framed};
ghost use Rattle.burr_frames.specs.Rules.SpaceRules.{AllSmallPlaces};
ghost use Rattle.burr_frames.specs.Rules.States.{state_of};
ghost use Rattle.burr_frames.specs.Views.Exits.{framed_ref};
ghost use Rattle.burr_frames.specs.Views.Here.{OfFramedProcedure};
ghost use Rattle.burr_verify.specs.Views.Forming.{IsLive, IsFormedAt, judging_label};
ghost use Rattle.burr_verify.specs.Rules.Judging.{judging_exit, judging_entry};
ghost use Rattle.burr_verify.specs.Views.Judgements.{AnswersPart};
ghost use Rattle.burr_verify.specs.Rules.WellFramed.{IsFormedEntry, HasNoLonePiece};

use crate::refusal::Refusal;
use arrayvec::ArrayVec;
use burr_code::limits::{MOST_PIECES, SLOTS};
use burr_code::{Placement, all_lie_in, count_in_tray};
use burr_container::{ExitRef, FormOffset, FrameRef, ProcedureRef};
use burr_frames::{Rule, State};

/// Judges the exit frame of a procedure and the frame of each of its labels.
pub fn judge_frames(procedure: ProcedureRef<'_, '_>) -> Result<(), Refusal>
    ensures { OfFramedProcedure procedure.entry (λ plan here. AnswersPart
        (λ rest. judging_exit procedure.entry.number here.exit
        (judging_entry procedure.entry.number here.parameters here.labels rest)) result) }
{
    judge_exit(procedure)?;
    for label in 0..procedure.label_count() {
        judge_frame(procedure, label)?;
    }
    Ok(())
}

/// Judges the exit frame of a procedure, if there is one.
#[inline(never)]
fn judge_exit(procedure: ProcedureRef<'_, '_>) -> Result<(), Refusal>
    ensures { OfFramedProcedure procedure.entry (λ plan here.
        AnswersPart (judging_exit procedure.entry.number here.exit) result) }
{
    let Some(exit) = procedure.exit() else {
        return Ok(());
    };
    let places = exit_places(&exit);
    if !are_formed(places.as_slice(), exit.tray(), exit.grip()) {
        return Err(Refusal::plain(procedure.number(), 0, Rule::BadFrame));
    }
    Ok(())
}

/// Judges the frame of a label of a procedure; that of the first is its entry frame.
#[inline(never)]
fn judge_frame(procedure: ProcedureRef<'_, '_>, label: usize) -> Result<(), Refusal>
    requires { LentHasLabel procedure label }
    ensures { OfFramedProcedure procedure.entry (λ plan here. (l : ℕ × Frame)
        → slice_get here.labels label ≡ Some l
        → AnswersPart (judging_label procedure.entry.number here.parameters label l) result) }
{
    let frame = procedure.frame(label);
    let state = State::of(&frame);
    let place = procedure.label(label);
    let number = procedure.number();
    if !is_formed_at(&frame, &state, procedure.params(), label) {
        return Err(Refusal::plain(number, place, Rule::BadFrame));
    }
    if !state.has_room_for_points() {
        return Err(Refusal::plain(number, place, Rule::StateTooLarge));
    }
    Ok(())
}

/// Whether the frame of a label, which says this state, is formed: each parameter is live, and the
/// pieces are as they have to be. That of the first is an entry frame.
fn is_formed_at(frame: &FrameRef<'_>, state: &State, parameters: u8, label: usize) -> bool
    requires few { parameters ≤ MOST_PARAMETERS }
    requires state { state.now ≡ state_of (framed (frame_of frame.now)) }
    ensures { IsTrue result ↔ IsFormedAt label parameters (framed (frame_of frame.now)) }
{
    are_live(frame, parameters)
        && are_formed(state.places(), state.tray(), state.grip())
        && (label != 0 || is_formed_entry(frame, parameters))
}

/// Whether no slot but the parameters is live, and no operand is there.
fn is_formed_entry(frame: &FrameRef<'_>, parameters: u8) -> bool
    ensures { IsTrue result ↔ IsFormedEntry parameters (framed (frame_of frame.now)) }
{
    for v in parameters..SLOTS as u8 {
        if frame.slot(v).is_some() {
            return false;
        }
    }
    frame.stack_count() == 0
}

/// Whether each slot below a number is live.
fn are_live(frame: &FrameRef<'_>, end: u8) -> bool
    requires { end ≤ MOST_PARAMETERS }
    ensures { IsTrue result ↔ ((v : ℕ) → v < end → IsLive (frame_of frame.now).slots v) }
{
    for v in 0..end {
        if frame.slot(v).is_none() {
            return false;
        }
    }
    true
}

/// Whether a grip lies in the current tray, and no tray holds exactly one piece.
fn are_formed(places: &[Placement<FormOffset>], tray: u8, grip: u32) -> bool
    ensures { IsTrue result ↔ (AllLieIn places.now tray grip × HasNoLonePiece places.now) }
{
    for place in places {
        if is_lone(places, place.tray()) {
            return false;
        }
    }
    all_lie_in(places, tray, grip)
}

/// Whether a piece in this tray is alone in it; a piece that is apart is not.
fn is_lone(places: &[Placement<FormOffset>], tray: Option<u8>) -> bool
    ensures { IsTrue result ↔ IsSomeAnd tray (λ t. count_in t places.now ≡ 1) }
{
    match tray {
        Some(tray) => count_in_tray(places, tray) == 1,
        None => false,
    }
}

/// The places of an exit frame, by forms over its symbols.
pub fn exit_places(exit: &ExitRef<'_>) -> ArrayVec<Placement<FormOffset>, MOST_PIECES>
    ensures places { result.items ≡ (framed_ref exit.now).places }
    ensures small { AllSmallPlaces result.items }
{
    let mut places = ArrayVec::new();
    for p in 0..exit.piece_count() {
        let place = match exit.place(p) {
            None => Placement::Apart,
            Some((tray, x, y, z)) => Placement::On {
                tray,
                position: FormOffset { x, y, z },
            },
        };
        places.push(place);
    }
    places
}
