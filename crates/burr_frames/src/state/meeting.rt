//! A state's agreement with what a frame says: arrival at a frame, and meeting one that is entered.

ghost use Rattle.std.specs.Prelude.{◌≡◌, ◌≤◌, [], IfOk, MatchOption, length, ◌+◌, ◌↔◌, IsTrue, ◌<◌, ◌++◌, ◌∷◌, ◌*◌, Some, slice_get, map, reverse, All};
ghost use Rattle.burr_code.specs.Places.{tray_of};
ghost use Rattle.burr_forms.specs.Rules.Forms.{IsSmallForm, AllSmallForms, substituted, values as values_of};
ghost use Rattle.burr_forms.specs.Rules.Conditions.{region, at_values, Throughout, FailsFirstAt};
ghost use Rattle.burr_forms.specs.Rules.Points.{AreRanges, InBox, GuardsHold};
ghost use Rattle.burr_forms.specs.Views.Searching.{AllBounded};
ghost use Rattle.burr_container.specs.Views.Refs.{frame_of, parameters_of};
ghost use Rattle.burr_frames.specs.Rules.FramedPlans.{framed};
ghost use Rattle.burr_frames.specs.Rules.Verdicts.{arriving, meeting, no_successor};
ghost use Rattle.burr_frames.specs.Rules.States.{Everywhere, IsFirstFailing, state_of};
ghost use Rattle.burr_frames.specs.Rules.Arrival.{IsAlike};
ghost use Rattle.burr_frames.specs.Views.ArrivalViews.{arrival_verdict, AgreesOrMisses, HoldsOrMisses};
ghost use Rattle.burr_frames.specs.Views.Exits.{miss_verdict, framed_ref, meeting_exit, meeting_exit_with};
ghost use Rattle.burr_frames.specs.Views.Comparing.{NoneBelow, offset_forms};
ghost use Rattle.burr_frames.specs.Rules.ControlRules.{IsAlikeExit, MeetsExitAt};
ghost use Rattle.burr_frames.specs.Rules.SpaceRules.{AllSmallPlaces};
ghost use Rattle.burr_frames.specs.Views.StateViews.{IsSmallSlot, GivesLiveForms};
ghost use Rattle.burr_frames.specs.declared.rule.Rule.TheVariants as rules;

use crate::forms::{Region, wide_value};
use crate::state::calls::{Exit, joined, padded};
use crate::state::instructions::has_at_most;
use crate::state::{State, extend};
use arrayvec::ArrayVec;
use burr_code::Placement;
use burr_code::limits::SLOTS;
use burr_container::{ExitRef, FormOffset, FrameRef};
use burr_forms::limits::MOST_FORMS;
use burr_forms::{Condition, Form, Point, first_failing};
use thiserror::Error;

/// To settle a form takes as long as to compare it at about this many points.
const FEW_POINTS: u32 = 16;

/// Why a state does not agree with what a frame says.
#[derive(Debug, PartialEq, Eq, Drop, Error)]
#[error("the frame is not met")]
pub struct Miss {
    /// The first of the state's points at which it does not agree with the frame; None where they
    /// differ without regard to points.
    pub point: Option<Point>,
}

/// Whether a state arrives at a frame. First what is asked without regard to points: the current
/// tray, the grip, the number of operands and each piece's tray are the frame's, and each slot that
/// is live in the frame is known. Then, at each point of the state, rising: the values of those
/// slots lie in the frame's ranges and its guards hold of them; the operands and the offsets have
/// the values of the frame's forms there; and the cost is at least the frame's.
pub fn arrives(state: &State, frame: &FrameRef<'_>) -> Result<(), Miss>
    ensures { arriving state.now (framed (frame_of frame.now)) no_successor
        (arrival_verdict result) }
{
    state.arrive(frame)?;
    Ok(())
}

/// Whether a state meets a frame, its cost not asked. First what is asked without regard to points:
/// each slot that is live in the frame is known, and the current tray, the grip, the number of
/// operands and each piece's tray are the frame's. Then, at each point of the state, rising: the
/// values of those slots lie in the frame's ranges and its guards hold of them; and the operands
/// and the offsets have the values of the frame's forms there.
pub fn meets_entry(state: &State, frame: &FrameRef<'_>) -> Result<(), Miss>
    ensures { meeting state.now (framed (frame_of frame.now)) rules.EntryMissed (λ _. no_successor)
        (miss_verdict rules.EntryMissed result) }
{
    state.met(frame)?;
    Ok(())
}

impl State {
    /// The state of a frame at which this one arrives, as `arrives` says it.
    #[inline(never)]
    pub fn arrive(&self, frame: &FrameRef<'_>) -> Result<State, Miss>
        ensures verdict { arriving self.now (framed (frame_of frame.now)) no_successor
            (arrival_verdict result) }
        ensures there { IfOk result (λ there. there ≡ state_of (framed (frame_of frame.now))) }
    {
        let there = State::of(frame);
        self.agreed(frame, &there, &[self.cost], &[there.cost])?;
        Ok(there)
    }

    /// The forms in the slots that are live in a frame, where the state meets it.
    pub(super) fn met(&self, frame: &FrameRef<'_>) -> Result<ArrayVec<Form, SLOTS>, Miss>
        ensures { AgreesOrMisses self.now (framed (frame_of frame.now)) [] [] result }
    {
        self.agreed(frame, &State::of(frame), &[], &[])
    }

    /// The forms in the slots that are live in a frame, where the state agrees with the frame, and
    /// the values of these forms, one at most, are not below those of as many of the frame's. The
    /// other state is the frame's own: the caller's condition.
    fn agreed(
        &self,
        frame: &FrameRef<'_>,
        there: &State,
        upper: &[Form],
        least: &[Form],
    ) -> Result<ArrayVec<Form, SLOTS>, Miss>
        requires there { there.now ≡ state_of (framed (frame_of frame.now)) }
        requires rows { length upper.now ≡ length least.now }
        requires one { length least.now ≤ 1 }
        requires upper_small { AllSmallForms upper.now }
        requires least_small { AllSmallForms least.now }
        ensures { AgreesOrMisses self.now (framed (frame_of frame.now)) upper.now least.now result }
    {
        let Some(live) = self.live_forms(frame) else {
            return Err(Miss { point: None });
        };
        if !self.is_alike(there) {
            return Err(Miss { point: None });
        }
        let ours = compared(live.as_slice(), upper, self.operands(), self.places());
        let theirs = compared(&[], &[], there.operands(), there.places());
        let agreement = Agreement {
            forms: ours.as_slice(),
            free: 0,
            ranges: there.ranges.as_slice(),
            guards: there.guards.as_slice(),
            least,
            same: theirs.as_slice(),
        };
        agreement.holds_in(&self.region()).and(Ok(live))
    }

    /// The forms in the slots that are live in a frame; None where one of them is not known.
    pub(super) fn live_forms(&self, frame: &FrameRef<'_>) -> Option<ArrayVec<Form, SLOTS>>
        ensures { GivesLiveForms (frame_of frame.now).slots self.now.slots result }
    {
        let mut forms = ArrayVec::new();
        for v in 0..SLOTS as u8 {
            if frame.slot(v).is_none() {
                continue;
            }
            forms.push(self.slot(v)?);
        }
        Some(forms)
    }

    /// Whether the current tray, the grip, the number of operands and each piece's tray are those
    /// of another state.
    pub(super) fn is_alike(&self, other: &State) -> bool
        ensures { IsTrue result ↔ IsAlike self.now other.now }
    {
        self.tray == other.tray
            && self.grip == other.grip
            && self.operands.len() == other.operands.len()
            && are_in_same_trays(self.places.as_slice(), other.places.as_slice())
    }

    /// Whether the current tray and the grip are those of an exit frame, and each piece's tray is
    /// that of its places.
    pub(super) fn is_alike_exit(&self, exit: &Exit) -> bool
        ensures { IsTrue result ↔ IsAlikeExit self.now exit.now }
    {
        self.tray == exit.tray
            && self.grip == exit.grip
            && are_in_same_trays(self.places.as_slice(), exit.places.as_slice())
    }

    /// Whether the state meets an exit frame where these forms are the parameters and the results.
    #[inline(never)]
    pub(in crate::state) fn meets_exit_with(
        &self,
        exit: &Exit,
        parameters: &[Form],
        results: &[Form],
    ) -> Result<(), Miss>
        requires many { length results.now ≡ length exit.now.results }
        requires few { length parameters.now + length results.now ≤ 8 }
        requires small { AllSmallForms parameters.now }
        requires results_small { AllSmallForms results.now }
        ensures { meeting_exit_with self.now exit.now parameters.now results.now
            (miss_verdict rules.ExitMissed result) }
    {
        if !self.is_alike_exit(exit) {
            return Err(Miss { point: None });
        }
        let symbols = joined(parameters, results);
        let ours = compared(symbols.as_slice(), &[], &[], self.places());
        let theirs = compared(&[], &[], &[], exit.places.as_slice());
        let agreement = Agreement {
            forms: ours.as_slice(),
            free: parameters.len(),
            ranges: exit.results.as_slice(),
            guards: exit.guards.as_slice(),
            least: &[],
            same: theirs.as_slice(),
        };
        agreement.holds_in(&self.region())
    }
}

/// The condition that values of a state's forms meet a target, which is given by forms over the
/// symbols whose values come first.
#[derive(Drop)]
pub struct Agreement<'a> {
    /// The state's forms: those of the symbols, then one for each of `least`, then one for each of
    /// `same`.
    pub forms: &'a [Form],
    /// How many symbols in front nothing bounds: none at a frame, the parameters at an exit frame.
    pub free: usize,
    /// Of each symbol after those.
    pub ranges: &'a [(i32, i32)],
    /// Forms that are not negative where all symbols have these values.
    pub guards: &'a [Form],
    /// Forms whose values there are at most the state's.
    pub least: &'a [Form],
    /// Forms whose values there are the state's.
    pub same: &'a [Form],
    ghost shape: { length forms.now
        ≡ free + length ranges.now + length least.now + length same.now },
    ghost few: { free + length ranges.now ≤ 8 },
    ghost are: { AreRanges ranges.now },
    ghost guards_small: { AllSmallForms guards.now },
    ghost least_small: { AllSmallForms least.now },
    ghost same_small: { AllSmallForms same.now },
}

impl<'a> Condition for Agreement<'a> {
    ghost use Rattle.burr_frames.specs.Views.Comparing.{IsMetBy};
    ghost use Rattle.burr_frames.specs.Views.Targets.{target_of};

    ghost asked = { λ c. c.forms.now };

    ghost Holds = { λ c values. IsMetBy (target_of c) values };

    fn forms(&self) -> &[Form] {
        self.forms
    }

    fn holds(&self, values: &[i64]) -> bool {
        let (symbols, others) = values.split_at(self.free + self.ranges.len());
        let (_, ranged) = symbols.split_at(self.free);
        let (least, same) = others.split_at(self.least.len());
        are_within(self.ranges, ranged)
            && guards_hold(self.guards, symbols)
            && none_below(self.least, symbols, least)
            && are_values(self.same, symbols, same)
    }
}

impl Agreement<'_> {
    ghost use Rattle.burr_frames.specs.Views.Comparing.{IsMetBy};
    ghost use Rattle.burr_frames.specs.Views.Shown.{ShowsMetBy};
    ghost use Rattle.burr_frames.specs.Views.Targets.{target_of};

    /// That the agreement holds at each point of a region; else it is missed at the first where it
    /// does not.
    fn holds_in(&self, here: &Region<'_>) -> Result<(), Miss>
        requires few_guards { length here.now.guards.now ≤ 120 }
        requires few_forms { length self.now.forms.now ≤ 120 }
        requires forms { AllSmallForms self.now.forms.now }
        ensures { HoldsOrMisses (region here.now.ranges.now here.now.guards.now)
            (at_values (IsMetBy (target_of self.now)) self.now.forms.now) result }
    {
        if !has_at_most(here.ranges, FEW_POINTS) && self.is_settled(here) {
            return Ok(());
        }
        match first_failing(here.ranges, here.guards, self) {
            None => Ok(()),
            Some(point) => Err(Miss { point: Some(point) }),
        }
    }

    /// Whether forms alone show that the agreement holds at each point of a region.
    #[inline(never)]
    fn is_settled(&self, here: &Region<'_>) -> bool
        requires { AllSmallForms self.now.forms.now }
        ensures sound { IsTrue result
            → Throughout (region here.now.ranges.now here.now.guards.now)
            (at_values (IsMetBy (target_of self.now)) self.now.forms.now) }
        ensures exact { IsTrue result
            ↔ ShowsMetBy (region here.now.ranges.now here.now.guards.now)
            (target_of self.now) self.now.forms.now }
    {
        let (symbols, others) = self.forms.split_at(self.free + self.ranges.len());
        let (_, ranged) = symbols.split_at(self.free);
        let (upper, equal) = others.split_at(self.least.len());
        let arguments = padded(symbols);
        are_substituted(equal, self.same, &arguments)
            && here.keeps_within(ranged, self.ranges)
            && here.keeps_guards(self.guards, &arguments)
            && here.keeps_above(upper, self.least, &arguments)
    }
}

/// Whether forms are others with arguments in place of their symbols, one by one.
fn are_substituted(forms: &[Form], others: &[Form], arguments: &[Form; SLOTS]) -> bool
    requires pairs { length forms.now ≡ length others.now }
    requires small { AllSmallForms forms.now }
    requires others_small { AllSmallForms others.now }
    requires arguments_small { AllSmallForms arguments.now }
    ensures { IsTrue result ↔ (map (substituted arguments.now) others.now ≡ forms.now) }
{
    for place in 0..forms.len() {
        let Ok(found) = others[place].substitute(arguments) else {
            return false;
        };
        if found != forms[place] {
            return false;
        }
    }
    true
}

/// Whether each of these numbers lies in its range.
fn are_within(ranges: &[(i32, i32)], numbers: &[i64]) -> bool
    requires places { length numbers.now ≡ length ranges.now }
    ensures { IsTrue result ↔ InBox ranges.now numbers.now }
{
    for place in 0..ranges.len() {
        let (low, high) = ranges[place];
        let number = numbers[place];
        if number < i64::from(low) || i64::from(high) < number {
            return false;
        }
    }
    true
}

/// Whether no guard is negative where the symbols have these values.
fn guards_hold(guards: &[Form], symbols: &[i64]) -> bool
    requires small { AllSmallForms guards.now }
    requires bounded { AllBounded symbols.now }
    requires few { length symbols.now ≤ 8 }
    ensures { IsTrue result ↔ GuardsHold guards.now symbols.now }
{
    guards.iter().all(|guard| wide_value(guard, symbols) >= 0)
}

/// Whether none of these numbers is below the value of its form where the symbols have these
/// values.
fn none_below(forms: &[Form], symbols: &[i64], numbers: &[i64]) -> bool
    requires small { AllSmallForms forms.now }
    requires bounded { AllBounded symbols.now }
    requires few { length symbols.now ≤ 8 }
    requires places { length numbers.now ≡ length forms.now }
    ensures { IsTrue result ↔ NoneBelow (values_of symbols.now forms.now) numbers.now }
{
    for place in 0..forms.len() {
        if i128::from(numbers[place]) < wide_value(&forms[place], symbols) {
            return false;
        }
    }
    true
}

/// Whether these numbers are the values of forms where the symbols have these values.
fn are_values(forms: &[Form], symbols: &[i64], numbers: &[i64]) -> bool
    requires small { AllSmallForms forms.now }
    requires bounded { AllBounded symbols.now }
    requires few { length symbols.now ≤ 8 }
    requires places { length numbers.now ≡ length forms.now }
    ensures { IsTrue result ↔ (values_of symbols.now forms.now ≡ numbers.now) }
{
    for place in 0..forms.len() {
        if i128::from(numbers[place]) != wide_value(&forms[place], symbols) {
            return false;
        }
    }
    true
}

/// Whether each piece is apart in both, or in the same tray.
fn are_in_same_trays(places: &[Placement<FormOffset>], others: &[Placement<FormOffset>]) -> bool
    ensures { IsTrue result ↔ (map tray_of places.now ≡ map tray_of others.now) }
{
    if places.len() != others.len() {
        return false;
    }
    for piece in 0..places.len() {
        if places[piece].tray() != others[piece].tray() {
            return false;
        }
    }
    true
}

/// Forms to be compared: those of symbols, others, those of operands, the bottom first, and those
/// of offsets, piece by piece.
fn compared(
    symbols: &[Form],
    others: &[Form],
    operands: &[Form],
    places: &[Placement<FormOffset>],
) -> ArrayVec<Form, MOST_FORMS>
    requires few { length symbols.now ≤ 8 }
    requires other { length others.now ≤ 1 }
    requires top { length operands.now ≤ 8 }
    requires pieces { length places.now ≤ 32 }
    requires small { AllSmallForms symbols.now }
    requires others_small { AllSmallForms others.now }
    requires operands_small { AllSmallForms operands.now }
    requires places_small { AllSmallPlaces places.now }
    ensures forms { result.items
        ≡ symbols.now ++ (others.now ++ (operands.now ++ offset_forms places.now)) }
    ensures small { AllSmallForms result.items }
{
    let mut forms = ArrayVec::new();
    extend(&mut forms, symbols);
    extend(&mut forms, others);
    extend(&mut forms, operands);
    append_offsets(&mut forms, places);
    forms
}

/// Puts the forms of offsets after others, piece by piece. There is room, the caller's condition.
fn append_offsets(forms: &mut ArrayVec<Form, MOST_FORMS>, places: &[Placement<FormOffset>])
    requires { length forms.old.items + 3 * length places.now ≤ 120 }
    ensures { forms.new.items ≡ forms.old.items ++ offset_forms places.now }
{
    for piece in 0..places.len() {
        append_offset(forms, &places[piece]);
    }
}

/// Puts the three forms of an offset after others, and none where the piece is apart. There is room,
/// the caller's condition.
pub(super) fn append_offset(forms: &mut ArrayVec<Form, MOST_FORMS>, place: &Placement<FormOffset>)
    requires { length forms.old.items + 3 ≤ 120 }
    ensures { forms.new.items ≡ forms.old.items ++ offset_forms (place.now ∷ []) }
{
    if let Placement::On { position, .. } = place {
        extend(forms, &[position.x, position.y, position.z]);
    }
}

/// Whether a state meets an exit frame. First what is asked without regard to points: each of the
/// first slots, as many as the frame's procedure has parameters, is known, there are as many
/// operands as results at least, and the current tray, the grip and each piece's tray are the exit
/// frame's. Then, at each point of the state, rising: the topmost operands, the results, lie in
/// their ranges, the guards hold, and the offsets have the values of the exit frame's forms, where
/// the parameters have the values of those slots and the results theirs.
pub fn meets_exit(state: &State, exit: &ExitRef<'_>) -> Result<(), Miss>
    ensures { meeting_exit (parameters_of exit.now) state.now (framed_ref exit.now)
        (miss_verdict rules.ExitMissed result) }
{
    let Some(forms) = state.first_forms(exit.parameters()) else {
        return Err(Miss { point: None });
    };
    let exit = Exit::of(exit);
    let Some(results) = state.top_many(exit.results.len()) else {
        return Err(Miss { point: None });
    };
    state.meets_exit_with(&exit, forms.as_slice(), results.as_slice())
}
