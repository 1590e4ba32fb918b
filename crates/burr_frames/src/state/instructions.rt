ghost use Rattle.std.specs.Prelude.{◌≡◌, ◌≤◌, ◌<◌, ◌↔◌, IsTrue, IfErr, IfSome, length, get_or, None, Some, not, drop, MatchOption, IfOk, pos, neg_ℤ, ℕ, List, slice_get};
ghost use Rattle.burr_code.specs.Stacks.{top, top_two};
ghost use Rattle.burr_code.specs.Places.{AllApart};
ghost use Rattle.burr_code.specs.declared.limits.TheConstants.{MOST_STATE_GUARDS};
ghost use Rattle.burr_code.specs.Labels.{labelled};
ghost use Rattle.burr_forms.specs.Rules.Forms.{IsSmallForm, number as form_of_number, times};
ghost use Rattle.burr_forms.specs.declared.limits.TheConstants.{MOST_POINTS};
ghost use Rattle.burr_forms.specs.Rules.Points.{IsRange, AreRanges, box_size};
ghost use Rattle.burr_container.specs.Rules.Plans.{Frame as FrameOf};
ghost use Rattle.burr_frames.specs.Rules.NumberRules.{push_rule, load_rule, store_rule, add_rule, sub_rule, drop_rule, result_rule};
ghost use Rattle.burr_frames.specs.Views.Breaks.{next_verdict, last_verdict, branch_verdict, FindsOrBreaks, FindsCounter, ArrivesOrBreaks};
ghost use Rattle.burr_frames.specs.declared.rule.Rule.TheVariants as rules;
ghost use Rattle.burr_frames.specs.Views.Here.{OfFramedProcedure, FindsFrame, IsSomeOf};
ghost use Rattle.burr_frames.specs.Rules.ControlRules.{halt_rule, jump_rule, down_rule, branch_rule, lowering, counted_down, HasRoomForSymbols};
ghost use Rattle.burr_frames.specs.Rules.Verdicts.{falls_through, arriving_at_all, no_successor};
ghost use Rattle.burr_frames.specs.Rules.QuestionRules.{ask_rule, pick_rule, with_symbol, asked};

use crate::forms::{number_form, one_less};
use crate::rule::{Break, Rule};
use crate::state::meeting::arrives;
use crate::state::{State, copied, symbol};
use arrayvec::ArrayVec;
use burr_code::limits::{MOST_NUMBER, SLOTS};
use burr_code::{Labels, are_all_apart};
use burr_container::{FrameRef, ProcedureRef};
use burr_forms::Form;
use burr_forms::limits::{MOST_POINTS, MOST_SYMBOLS};

impl State {
    /// `push`: a number more on the operands.
    pub fn push(&mut self, number: i16) -> Result<(), Break>
        ensures verdict { push_rule self.old number (next_verdict self.new result) }
        ensures kept { IfErr result (λ _. self.new ≡ self.old) }
    {
        if self.is_full() {
            return Err(Break::plain(Rule::StackFull));
        }
        let cost = self.paid()?;
        self.set_cost(cost);
        self.put(number_form(i32::from(number)));
        Ok(())
    }

    /// `load`: the form in slot v, if it is known, is one operand more.
    pub fn load(&mut self, v: u8) -> Result<(), Break>
        requires { v < 8 }
        ensures verdict { load_rule self.old v (next_verdict self.new result) }
        ensures kept { IfErr result (λ _. self.new ≡ self.old) }
    {
        let form = self.form_in(v).ok_or(Break::plain(Rule::EmptySlot))?;
        if self.is_full() {
            return Err(Break::plain(Rule::StackFull));
        }
        let cost = self.paid()?;
        self.set_cost(cost);
        self.put(form);
        Ok(())
    }

    /// `add`: the sum of the two topmost operands in their place.
    pub fn add(&mut self) -> Result<(), Break>
        ensures verdict { add_rule self.old (next_verdict self.new result) }
        ensures kept { IfErr result (λ _. self.new ≡ self.old) }
    {
        let (upper, lower) = self.two_topmost()?;
        let sum = lower.add(&upper)?;
        self.put_result(sum)
    }

    /// `sub`: the lower of the two topmost operands less the upper one in their place.
    pub fn sub(&mut self) -> Result<(), Break>
        ensures verdict { sub_rule self.old (next_verdict self.new result) }
        ensures kept { IfErr result (λ _. self.new ≡ self.old) }
    {
        let (upper, lower) = self.two_topmost()?;
        let difference = lower.sub(&upper)?;
        self.put_result(difference)
    }

    /// A result in place of the two topmost operands, which are there.
    fn put_result(&mut self, form: Form) -> Result<(), Break>
        requires two { 2 ≤ length self.old.operands }
        requires small { IsSmallForm form }
        ensures verdict { result_rule self.old form (drop 2 self.old.operands)
            (next_verdict self.new result) }
        ensures kept { IfErr result (λ _. self.new ≡ self.old) }
    {
        self.stays_within(&[form], MOST_NUMBER, Rule::NumberRange)?;
        let cost = self.paid()?;
        self.set_cost(cost);
        self.take_off();
        self.take_off();
        self.put(form);
        Ok(())
    }

    /// `drop`: the topmost operand is gone.
    pub fn drop_top(&mut self) -> Result<(), Break>
        ensures verdict { drop_rule self.old (next_verdict self.new result) }
        ensures kept { IfErr result (λ _. self.new ≡ self.old) }
    {
        self.topmost().ok_or(Break::plain(Rule::MissingOperand))?;
        let cost = self.paid()?;
        self.set_cost(cost);
        self.take_off();
        Ok(())
    }

    /// `store`: slot v, which is no parameter of the procedure, has the topmost operand's form,
    /// which is taken off.
    pub fn store(&mut self, procedure: ProcedureRef<'_, '_>, v: u8) -> Result<(), Break>
        requires { v < 8 }
        ensures verdict { OfFramedProcedure procedure.entry (λ plan here.
            store_rule here self.old v (next_verdict self.new result)) }
        ensures kept { IfErr result (λ _. self.new ≡ self.old) }
    {
        if v < procedure.params() {
            return Err(Break::plain(Rule::ParamWritten));
        }
        let form = self.topmost().ok_or(Break::plain(Rule::MissingOperand))?;
        let cost = self.paid()?;
        self.set_cost(cost);
        self.take_off();
        self.set_slot(v, form);
        Ok(())
    }

    /// The two topmost operands, the upper one first.
    fn two_topmost(&self) -> Result<(Form, Form), Break>
        ensures two { FindsOrBreaks (λ f. (2 ≤ length self.now.operands)
            × (top_two self.now.operands ≡ Some (f.0, f.1, drop 2 self.now.operands)))
            (top_two self.now.operands ≡ None) rules.MissingOperand result }
        ensures small { IfOk result (λ f. IsSmallForm f.0 × IsSmallForm f.1) }
    {
        let [.., lower, upper] = self.operands.as_slice() else {
            return Err(Break::plain(Rule::MissingOperand));
        };
        Ok((*upper, *lower))
    }

    /// The topmost operand; None where there is no operand.
    fn topmost(&self) -> Option<Form>
        ensures top { MatchOption result (top self.now.operands ≡ None)
            (λ form. top self.now.operands ≡ Some (form, drop 1 self.now.operands)) }
        ensures small { IfSome result IsSmallForm }
    {
        self.operands.last().copied()
    }

    /// Whether there is no room for an operand more.
    pub(super) fn is_full(&self) -> bool
        ensures { IsTrue (not result) ↔ (length self.now.operands < 8) }
    {
        self.operands.is_full()
    }

    /// The form in slot v; None where nothing is known of it.
    pub(super) fn form_in(&self, v: u8) -> Option<Form>
        requires { v < 8 }
        ensures slot { get_or self.now.slots v None ≡ result }
        ensures small { IfSome result IsSmallForm }
    {
        self.slots[usize::from(v)]
    }

    // The rules of the instructions of the flow of control.

    /// `halt`: in main, with all pieces apart.
    pub fn halt(&self, procedure: ProcedureRef<'_, '_>) -> Result<(), Break>
        ensures { halt_rule procedure.entry.number self.now (last_verdict result) }
    {
        if procedure.number() != 0 {
            return Err(Break::plain(Rule::ExitMissed));
        }
        if !are_all_apart(self.places()) {
            return Err(Break::plain(Rule::NotApart));
        }
        self.paid()?;
        Ok(())
    }

    /// `jump`: arrives at a label.
    #[inline(never)]
    pub fn jump(&self, procedure: ProcedureRef<'_, '_>, label: u16) -> Result<(), Break>
        ensures { OfFramedProcedure procedure.entry (λ plan here.
            jump_rule here self.now label (last_verdict result)) }
    {
        let frame = frame_at(procedure, label)?;
        let cost = self.paid()?;
        let mut paid = self.copied();
        paid.set_cost(cost);
        paid.arrives_or_breaks(&frame)
    }

    /// `down`: where the counter in slot v is above 0, it arrives at a label with the counter one
    /// less; where it is 0, it goes on after.
    #[inline(never)]
    pub fn down(&mut self, procedure: ProcedureRef<'_, '_>, v: u8, label: u16) -> Result<(), Break>
        requires { v < 8 }
        ensures verdict { OfFramedProcedure procedure.entry (λ plan here.
            down_rule here self.old v label (next_verdict self.new result)) }
        ensures kept { IfErr result (λ _. self.new ≡ self.old) }
    {
        let frame = frame_at(procedure, label)?;
        let count = self.counter(procedure, v)?;
        let branch = self.lowered(v, &count)?;
        branch.arrives_or_breaks(&frame)?;
        self.set_cost(branch.cost);
        self.add_guard(negated(&count));
        Ok(())
    }

    /// The second state of `down`, which goes on at its label: the counter in slot v, above 0, is
    /// one less. All of the rule's checks are made but the arrival.
    #[inline(never)]
    pub fn branch(&self, procedure: ProcedureRef<'_, '_>, v: u8, label: u16) -> Result<State, Break>
        requires { v < 8 }
        ensures { OfFramedProcedure procedure.entry (λ plan here.
            branch_rule here self.now v label (branch_verdict result)) }
    {
        frame_at(procedure, label)?;
        let count = self.counter(procedure, v)?;
        self.lowered(v, &count)
    }

    /// The form of a counter: the slot is no parameter of the procedure, and is known.
    fn counter(&self, procedure: ProcedureRef<'_, '_>, slot: u8) -> Result<Form, Break>
        requires { slot < 8 }
        ensures counter { OfFramedProcedure procedure.entry (λ plan here.
            FindsCounter here self.now slot result) }
        ensures small { IfOk result IsSmallForm }
    {
        if slot < procedure.params() {
            return Err(Break::plain(Rule::ParamWritten));
        }
        self.form_in(slot).ok_or(Break::plain(Rule::EmptySlot))
    }

    /// The state with the counter in slot v, above 0, one less than this form, and the step paid
    /// for.
    #[inline(never)]
    fn lowered(&self, v: u8, count: &Form) -> Result<State, Break>
        requires slot { v < 8 }
        requires small { IsSmallForm count.now }
        ensures { lowering self.now count.now
            (λ paid. falls_through (counted_down v count.now paid)) (branch_verdict result) }
    {
        let less = one_less(count)?;
        self.never_negative(count, Rule::BadCount)?;
        if self.guards_are_full() {
            return Err(Break::plain(Rule::StateTooLarge));
        }
        let cost = self.paid()?;
        let mut branch = self.copied();
        branch.set_cost(cost);
        branch.add_guard(less);
        branch.set_slot(v, less);
        Ok(branch)
    }

    /// That the state arrives at a label's frame, its cost included.
    pub(super) fn arrives_or_breaks(&self, frame: &FrameRef<'_>) -> Result<(), Break>
        ensures { ArrivesOrBreaks self.now frame.now result }
    {
        match arrives(self, frame) {
            Ok(()) => Ok(()),
            Err(miss) => Err(Break::at(Rule::FrameMissed, miss.point)),
        }
    }

    // The rules of the instructions that ask.

    /// `ask`: a symbol of this range more, which is the topmost operand.
    #[inline(never)]
    pub fn ask(&mut self, low: i16, high: i16) -> Result<(), Break>
        requires { IsRange (low, high) }
        ensures verdict { ask_rule self.old low high (next_verdict self.new result) }
        ensures kept { IfErr result (λ _. self.new ≡ self.old) }
    {
        if self.is_full() {
            return Err(Break::plain(Rule::StackFull));
        }
        if !self.has_room_for_symbol(low, high) {
            return Err(Break::plain(Rule::StateTooLarge));
        }
        let cost = self.paid()?;
        self.set_cost(cost);
        self.add_symbol(low, high);
        Ok(())
    }

    /// `pick`: arrives at each of these labels.
    #[inline(never)]
    pub fn pick(&self, procedure: ProcedureRef<'_, '_>, labels: &Labels<'_>) -> Result<(), Break>
        ensures { OfFramedProcedure procedure.entry (λ plan here.
            pick_rule here self.now labels.now (last_verdict result)) }
    {
        if !has_labels(procedure, labels) {
            return Err(Break::plain(Rule::BadJump));
        }
        let cost = self.paid()?;
        let mut paid = self.copied();
        paid.set_cost(cost);
        paid.arrives_at_all(procedure, labels)
    }

    /// That the state arrives at each of these labels of a procedure, which has them: the caller's
    /// condition.
    fn arrives_at_all(
        &self,
        procedure: ProcedureRef<'_, '_>,
        labels: &Labels<'_>,
    ) -> Result<(), Break>
        ensures { OfFramedProcedure procedure.entry (λ plan here. (to : List (ℕ × FrameOf))
            → labelled here.labels labels.now ≡ Some to
            → arriving_at_all self.now to no_successor (last_verdict result)) }
    {
        for number in 0..labels.len() {
            let Some(label) = labels.get(number) else {
                unreachable!();
            };
            let frame = frame_at(procedure, label)?;
            self.arrives_or_breaks(&frame)?;
        }
        Ok(())
    }

    /// Whether there is room for a symbol more, with numbers of this range.
    fn has_room_for_symbol(&self, low: i16, high: i16) -> bool
        requires { IsRange (low, high) }
        ensures { IsTrue result ↔ HasRoomForSymbols (with_symbol low high self.now) }
    {
        self.guards_are_few();
        if self.ranges.is_full() {
            return false;
        }
        let mut ranges: ArrayVec<_, SLOTS> = copied(self.ranges.as_slice());
        ranges.push((i32::from(low), i32::from(high)));
        has_at_most(ranges.as_slice(), MOST_POINTS)
    }

    /// A law of each state: it has no more guards than there is room for.
    fn guards_are_few(&self)
        ensures { length self.now.guards ≤ MOST_STATE_GUARDS }
    {
        let _ = self.guards.len();
    }

    /// Whether the symbols have no more than 4,096 points, guards not counted.
    pub fn has_room_for_points(&self) -> bool
        ensures { IsTrue result ↔ (box_size self.now.ranges ≤ MOST_POINTS) }
    {
        has_at_most(self.ranges.as_slice(), MOST_POINTS)
    }

    /// A symbol of this range more, which is the topmost operand. There is room, the caller's
    /// condition.
    fn add_symbol(&mut self, low: i16, high: i16)
        requires range { IsRange (low, high) }
        requires room { length self.old.ranges < 8 }
        requires operands { length self.old.operands < 8 }
        ensures { self.new ≡ asked low high self.old }
    {
        let form = symbol(self.ranges.len());
        self.ranges.push((i32::from(low), i32::from(high)));
        self.operands.push(form);
    }
}

/// The form with each number the other way.
fn negated(form: &Form) -> Form
    requires small { IsSmallForm form.now }
    ensures form { result ≡ times (neg_ℤ (pos 1)) form.now }
    ensures small { IsSmallForm result }
{
    let mut coefs = form.coefs;
    for symbol in 0..MOST_SYMBOLS {
        coefs[symbol] = -form.coefs[symbol];
    }
    Form {
        constant: -form.constant,
        coefs,
    }
}

/// Whether a box has at most this many points, 1 to 4,096.
pub(super) fn has_at_most(ranges: &[(i32, i32)], most: u32) -> bool
    requires ranges { AreRanges ranges.now }
    requires some { 1 ≤ most }
    requires few { most ≤ MOST_POINTS }
    ensures { IsTrue result ↔ (box_size ranges.now ≤ most) }
{
    let mut count: u32 = 1;
    for symbol in 0..ranges.len() {
        let (low, high) = ranges[symbol];
        count *= (high - low) as u32 + 1;
        if most < count {
            return false;
        }
    }
    true
}

// Frames of a container by the numbers that instructions name.

/// The frame of a label of a procedure.
pub fn frame_at<'c>(procedure: ProcedureRef<'_, 'c>, label: u16) -> Result<FrameRef<'c>, Break>
    ensures { OfFramedProcedure procedure.entry (λ plan here.
        FindsFrame (slice_get here.labels label) result) }
{
    let label = usize::from(label);
    if label >= procedure.label_count() {
        return Err(Break::plain(Rule::BadJump));
    }
    Ok(procedure.frame(label))
}

/// Whether a procedure has all of these labels.
fn has_labels(procedure: ProcedureRef<'_, '_>, labels: &Labels<'_>) -> bool
    ensures { OfFramedProcedure procedure.entry (λ plan here.
        IsTrue result ↔ IsSomeOf (labelled here.labels labels.now)) }
{
    let count = procedure.label_count();
    for number in 0..labels.len() {
        let Some(label) = labels.get(number) else {
            return false;
        };
        if usize::from(label) >= count {
            return false;
        }
    }
    true
}
