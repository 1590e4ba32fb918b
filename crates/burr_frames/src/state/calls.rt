ghost use Rattle.std.specs.Prelude.{◌≡◌, ◌+◌, ◌<◌, ◌≤◌, [], IfErr, All, Some, length, reverse, drop, ◌++◌, MatchResult, map};
ghost use Rattle.burr_code.specs.Labels.{argument_slots as slots_of};
ghost use Rattle.burr_code.specs.declared.limits.TheConstants.{MOST_GUARDS, MOST_RESULTS};
ghost use Rattle.burr_forms.specs.Rules.Forms.{substituted, IsSmallForm, AllSmallForms};
ghost use Rattle.burr_forms.specs.Rules.Points.{AreRanges};
ghost use Rattle.burr_container.specs.Views.Refs.{frame_of, exit_frame_of, parameters_of};
ghost use Rattle.burr_container.specs.Rules.Plans.{over_symbols};
ghost use Rattle.burr_frames.specs.Rules.ControlRules.{call_rule, calling, paying_call, after_call, called_with, symbols_from, substituted_places, ret_rule};
ghost use Rattle.burr_frames.specs.Rules.FramedPlans.{framed, FramedProcedure};
ghost use Rattle.burr_frames.specs.Views.ArrivalViews.{AgreesOrMisses};
ghost use Rattle.burr_frames.specs.Views.StateViews.{IsSmallSlot};
ghost use Rattle.burr_frames.specs.Views.Breaks.{next_verdict, last_verdict};
ghost use Rattle.burr_frames.specs.Views.CallViews.{GivesTopmost, GivesAfter, GivesRanges, GivesSubstituted, GivesFirstForms};
ghost use Rattle.burr_frames.specs.Views.Here.{OfFramedProcedure};
ghost use Rattle.burr_frames.specs.Rules.SpaceRules.{AllSmallPlaces};
ghost use Rattle.burr_frames.specs.Views.Exits.{framed_ref};

use crate::forms::{one_less, placed, substituted};
use crate::rule::{Break, Rule};
use crate::state::instructions::{frame_at, has_at_most};
use crate::state::meeting::Miss;
use crate::state::{MOST_PIECES, State, copied, copied_slots, extend, symbol};
use arrayvec::ArrayVec;
use burr_code::Placement;
use burr_code::limits::{MOST_GUARDS, MOST_OPERANDS, MOST_RESULTS, MOST_STATE_GUARDS, SLOTS};
use burr_container::{ExitRef, FormOffset, FrameRef, ProcedureRef};
use burr_forms::limits::MOST_POINTS;
use burr_forms::{Form, FormTooLarge};
use std::marker::Model;

impl State {
    /// `call`: the topmost operands are the arguments of a procedure of a higher number, whose
    /// entry frame they meet; after it the pieces lie as its exit frame says of them and of the
    /// results, which are the topmost operands in place of the arguments, and its cost at the
    /// arguments is paid beside the step.
    #[inline(never)]
    pub fn call(&mut self, procedure: ProcedureRef<'_, '_>, callee: u8) -> Result<(), Break>
        ensures verdict { OfFramedProcedure procedure.entry (λ plan here.
            call_rule plan procedure.entry.number self.old callee (next_verdict self.new result)) }
        ensures kept { IfErr result (λ _. self.new ≡ self.old) }
    {
        if callee <= procedure.number() {
            return Err(Break::plain(Rule::BadCall));
        }
        let Some(called) = procedure.sibling(callee) else {
            return Err(Break::plain(Rule::BadCall));
        };
        let Some(exit) = called.exit() else {
            return Err(Break::plain(Rule::BadCall));
        };
        let Ok(entry) = frame_at(called, 0) else {
            return Err(Break::plain(Rule::EntryMissed));
        };
        self.calls(called.params(), &entry, &Exit::of(&exit))
    }

    /// A call of a procedure with `count` parameters and with this entry frame and this exit frame.
    fn calls(&mut self, count: u8, entry: &FrameRef<'_>, exit: &Exit) -> Result<(), Break>
        requires few { count + length exit.now.results ≤ 8 }
        ensures verdict { calling self.old count (length exit.now.results)
            (framed (frame_of entry.now)) exit.now (next_verdict self.new result) }
        ensures kept { IfErr result (λ _. self.new ≡ self.old) }
    {
        let count = usize::from(count);
        let Some(arguments) = self.top_many(count) else {
            return Err(Break::plain(Rule::MissingOperand));
        };
        if MOST_OPERANDS < self.operands.len() - count + exit.results.len() {
            return Err(Break::plain(Rule::StackFull));
        }
        let live = match self.met_with(arguments.as_slice(), entry) {
            Ok(live) => live,
            Err(miss) => return Err(Break::at(Rule::EntryMissed, miss.point)),
        };
        self.pays_for(arguments.as_slice(), exit, &entry.cost(), live.as_slice())
    }

    /// The forms in the slots that are live in an entry frame, where the state in which a callee
    /// begins with these arguments meets it.
    #[inline(never)]
    fn met_with(
        &self,
        arguments: &[Form],
        entry: &FrameRef<'_>,
    ) -> Result<ArrayVec<Form, SLOTS>, Miss>
        requires few { length arguments.now ≤ 8 }
        requires small { AllSmallForms arguments.now }
        ensures { AgreesOrMisses (called_with (reverse arguments.now) self.now)
            (framed (frame_of entry.now)) [] [] result }
    {
        let mut called = self.copied();
        called.slots = argument_slots(arguments);
        called.operands = ArrayVec::new();
        called.met(entry)
    }

    /// A call with these arguments, its entry frame met, of a procedure with an exit frame and a
    /// cost, which is a form over what is in the slots live at its entry.
    #[inline(never)]
    fn pays_for(
        &mut self,
        arguments: &[Form],
        exit: &Exit,
        cost: &Form,
        live: &[Form],
    ) -> Result<(), Break>
        requires few { length arguments.now + length exit.now.results ≤ 8 }
        requires there { length arguments.now ≤ length self.old.operands }
        requires room { length (drop (length arguments.now) self.old.operands)
            + length exit.now.results ≤ 8 }
        requires small { AllSmallForms arguments.now }
        requires cost { IsSmallForm cost.now }
        requires few_live { length live.now ≤ 8 }
        requires small_live { AllSmallForms live.now }
        ensures verdict { paying_call self.old
            (after_call self.old arguments.now (drop (length arguments.now) self.old.operands)
            exit.now)
            (substituted live.now cost.now) (next_verdict self.new result) }
        ensures kept { IfErr result (λ _. self.new ≡ self.old) }
    {
        let mut after = self.after_call(arguments, exit)?;
        let callee_cost = cost.substitute(&padded(live))?;
        let less = one_less(&self.cost)?;
        let left = less.sub(&callee_cost)?;
        self.never_negative(&left, Rule::CostTooLow)?;
        after.set_cost(left);
        *self = after;
        Ok(())
    }

    /// The topmost `count` operands, the top last; None where there are fewer.
    pub(super) fn top_many(&self, count: usize) -> Option<ArrayVec<Form, MOST_OPERANDS>>
        ensures operands { GivesTopmost count self.now.operands result }
        ensures few { length self.now.operands ≤ 8 }
    {
        let first = self.operands.len().checked_sub(count)?;
        Some(copied(&self.operands[first..]))
    }

    /// The state after a call with these arguments, the topmost operands, by the callee's exit
    /// frame, its cost not yet paid: the results are symbols more, with the frame's ranges, and the
    /// topmost operands; its guards hold; and the pieces lie as it says. First there has to be room
    /// for the symbols and the guards, and then all forms have to be small.
    #[inline(never)]
    pub(super) fn after_call(&self, arguments: &[Form], exit: &Exit) -> Result<State, Break>
        requires few { length arguments.now + length exit.now.results ≤ 8 }
        requires there { length arguments.now ≤ length self.now.operands }
        requires room { length (drop (length arguments.now) self.now.operands)
            + length exit.now.results ≤ 8 }
        requires small { AllSmallForms arguments.now }
        ensures { GivesAfter (after_call self.now arguments.now
            (drop (length arguments.now) self.now.operands) exit.now) result }
    {
        let Some(ranges) = self.ranges_after(exit) else {
            return Err(Break::plain(Rule::StateTooLarge));
        };
        if MOST_STATE_GUARDS < self.guards.len() + exit.guards.len() {
            return Err(Break::plain(Rule::StateTooLarge));
        }
        let results = symbols_from(self.ranges.len(), exit.results.len());
        let symbols = joined(arguments, results.as_slice());
        let places = places_with(exit.places.as_slice(), symbols.as_slice())?;
        let guards = guards_with(exit.guards.as_slice(), symbols.as_slice())?;
        Ok(State {
            ranges,
            guards: joined(self.guards.as_slice(), guards.as_slice()),
            slots: copied_slots(&self.slots),
            operands: joined(
                &self.operands[..self.operands.len() - arguments.len()],
                results.as_slice(),
            ),
            places,
            tray: exit.tray,
            grip: exit.grip,
            cost: self.cost,
        })
    }

    /// The ranges of the symbols and of an exit frame's results, where they are eight at most and
    /// have no more than 4,096 points.
    fn ranges_after(&self, exit: &Exit) -> Option<ArrayVec<(i32, i32), SLOTS>>
        ensures { GivesRanges (self.now.ranges ++ exit.now.results) result }
    {
        if 8 < self.ranges.len() + exit.results.len() {
            return None;
        }
        let ranges = joined(self.ranges.as_slice(), exit.results.as_slice());
        if !has_at_most(ranges.as_slice(), MOST_POINTS) {
            return None;
        }
        Some(ranges)
    }

    /// `ret`: the topmost operands are the results, and they and the pieces are as the procedure's
    /// exit frame says of its parameters.
    #[inline(never)]
    pub fn ret(&self, procedure: ProcedureRef<'_, '_>) -> Result<(), Break>
        ensures { OfFramedProcedure procedure.entry (λ plan here.
            ret_rule here self.now (last_verdict result)) }
    {
        let Some(exit) = procedure.exit() else {
            return Err(Break::plain(Rule::ExitMissed));
        };
        let Some(parameters) = self.first_forms(exit.parameters()) else {
            return Err(Break::plain(Rule::ExitMissed));
        };
        let frame = Exit::of(&exit);
        let Some(results) = self.top_many(frame.results.len()) else {
            return Err(Break::plain(Rule::MissingOperand));
        };
        self.paid()?;
        match self.meets_exit_with(&frame, parameters.as_slice(), results.as_slice()) {
            Ok(()) => Ok(()),
            Err(miss) => Err(Break::at(Rule::ExitMissed, miss.point)),
        }
    }

    /// The forms in the first slots; None where one of them is not known.
    pub(super) fn first_forms(&self, count: u8) -> Option<ArrayVec<Form, SLOTS>>
        ensures { GivesFirstForms count self.now.slots result }
    {
        let mut forms = ArrayVec::new();
        for v in 0..count {
            forms.push(self.slot(v)?);
        }
        Some(forms)
    }
}

/// The slots in which a callee begins with these arguments.
fn argument_slots(arguments: &[Form]) -> [Option<Form>; SLOTS]
    requires few { length arguments.now ≤ 8 }
    requires small { AllSmallForms arguments.now }
    ensures slots { result ≡ slots_of (reverse arguments.now) }
    ensures small { All IsSmallSlot result }
{
    let mut slots = [None; SLOTS];
    for v in 0..arguments.len() {
        slots[v] = Some(arguments[v]);
    }
    slots
}

/// The forms of `count` symbols, from symbol `first` on.
fn symbols_from(first: usize, count: usize) -> ArrayVec<Form, SLOTS>
    requires { first + count ≤ 8 }
    ensures symbols { result.items ≡ symbols_from first count }
    ensures many { length result.items ≡ count }
    ensures small { AllSmallForms result.items }
{
    let mut symbols = ArrayVec::new();
    for number in first..first + count {
        symbols.push(symbol(number));
    }
    symbols
}

/// These elements, one list after the other.
pub(super) fn joined<T: Copy + Default>(first: &[T], second: &[T]) -> ArrayVec<T, SLOTS>
    requires { length first.now + length second.now ≤ 8 }
    ensures { result.items ≡ first.now ++ second.now }
{
    let mut joined = ArrayVec::new();
    extend(&mut joined, first);
    extend(&mut joined, second);
    joined
}

/// The same places with these forms in place of the symbols of their forms.
fn places_with(
    there: &[Placement<FormOffset>],
    symbols: &[Form],
) -> Result<ArrayVec<Placement<FormOffset>, MOST_PIECES>, FormTooLarge>
    requires few_places { length there.now ≤ 32 }
    requires small_places { AllSmallPlaces there.now }
    requires few { length symbols.now ≤ 8 }
    requires small { AllSmallForms symbols.now }
    ensures { MatchResult result
        (λ places. (places.items ≡ substituted_places symbols.now there.now)
        × AllSmallPlaces places.items)
        (λ _. ¬ AllSmallPlaces (substituted_places symbols.now there.now)) }
{
    let forms = padded(symbols);
    let mut places = ArrayVec::new();
    for piece in 0..there.len() {
        places.push(substituted(&there[piece], &forms)?);
    }
    Ok(places)
}

/// The same guards with these forms in place of their symbols.
fn guards_with(
    there: &[Form],
    symbols: &[Form],
) -> Result<ArrayVec<Form, MOST_GUARDS>, FormTooLarge>
    requires few_guards { length there.now ≤ MOST_GUARDS }
    requires small_guards { AllSmallForms there.now }
    requires few { length symbols.now ≤ 8 }
    requires small { AllSmallForms symbols.now }
    ensures { GivesSubstituted symbols.now there.now result }
{
    let forms = padded(symbols);
    let mut guards = ArrayVec::new();
    for guard in 0..there.len() {
        guards.push(there[guard].substitute(&forms)?);
    }
    Ok(guards)
}

/// Forms for eight symbols, zeros after.
pub(super) fn padded(forms: &[Form]) -> [Form; SLOTS]
    requires few { length forms.now ≤ 8 }
    requires small { AllSmallForms forms.now }
    ensures padded { substituted result ≡ substituted forms.now }
    ensures small { AllSmallForms result }
{
    let mut padded = [Form::default(); SLOTS];
    for symbol in 0..forms.len() {
        padded[symbol] = forms[symbol];
    }
    padded
}

/// What holds where a procedure returns. Its forms are over the parameters and, after them, the
/// results; their numbers lie within ±2^40.
#[derive(Drop)]
pub struct Exit {
    /// Of each result, both ends in it.
    pub results: ArrayVec<(i32, i32), MOST_RESULTS>,
    /// Forms that are not negative.
    pub guards: ArrayVec<Form, MOST_GUARDS>,
    pub places: ArrayVec<Placement<FormOffset>, MOST_PIECES>,
    /// The current tray.
    pub tray: u8,
    /// The pieces that are gripped: bit p is piece p.
    pub grip: u32,
}

impl Model for Exit {
    ghost use Rattle.burr_frames.specs.Rules.FramedPlans.{FramedExit};
    ghost use Rattle.burr_frames.specs.Views.StateViews.{framed_exit_with, IsSmallExit};

    ghost Value = { FramedExit };

    ghost view = { λ e.
        framed_exit_with e.results.items e.guards.items e.places.items e.tray e.grip };

    ghost invariant = { λ e. IsSmallExit (framed_exit_with e.results.items e.guards.items
        e.places.items e.tray e.grip) };
}

impl Exit {
    /// What an exit frame says that is read in place.
    pub fn of(exit: &ExitRef<'_>) -> Exit
        ensures exit { result ≡ framed_ref exit.now }
        ensures few { length result.results ≤ MOST_RESULTS }
    {
        Exit {
            results: results(exit),
            guards: guards(exit),
            places: places(exit),
            tray: exit.tray(),
            grip: exit.grip(),
        }
    }
}

/// The ranges of the results.
fn results(exit: &ExitRef<'_>) -> ArrayVec<(i32, i32), MOST_RESULTS>
    ensures ranges { result.items ≡ (exit_frame_of exit.now).results }
    ensures are { AreRanges result.items }
{
    let mut ranges = ArrayVec::new();
    for n in 0..exit.result_count() {
        let (low, high) = exit.result(n);
        ranges.push((i32::from(low), i32::from(high)));
    }
    ranges
}

/// The guards over symbols.
fn guards(exit: &ExitRef<'_>) -> ArrayVec<Form, MOST_GUARDS>
    ensures guards { result.items
        ≡ map (over_symbols exit.now.places.live) (exit_frame_of exit.now).guards }
    ensures small { AllSmallForms result.items }
{
    let mut guards = ArrayVec::new();
    for n in 0..exit.guard_count() {
        guards.push(exit.guard(n));
    }
    guards
}

/// The places by forms over symbols.
fn places(exit: &ExitRef<'_>) -> ArrayVec<Placement<FormOffset>, MOST_PIECES>
    ensures places { result.items ≡ (framed_ref exit.now).places }
    ensures small { AllSmallPlaces result.items }
{
    let mut places = ArrayVec::new();
    for p in 0..exit.piece_count() {
        places.push(placed(exit.place(p)));
    }
    places
}
