mod calls;
mod instructions;
mod meeting;
mod moves;

ghost use Rattle.std.specs.Prelude.{◌≡◌, ◌<◌, IfSome, None, get_or, reverse, ◌≤◌, ◌∷◌, [], List, length, replicate, map, All, ◌+◌, ◌++◌, ◌↔◌, IsTrue, not, ◌≤ℤ◌, pos};
ghost use Rattle.burr_voxels.specs.declared.cell.Cell.{Cell as CellOf};
ghost use Rattle.burr_code.specs.declared.limits.TheConstants.{MOST_OPERANDS, MOST_PIECES};
ghost use Rattle.burr_code.specs.declared.placement.Placement.TheVariants.{On};
ghost use Rattle.burr_forms.specs.Rules.Forms.{IsSmallForm, symbol as symbol_of, AllSmallForms, value, values};
ghost use Rattle.burr_forms.specs.Rules.Conditions.{region};
ghost use Rattle.burr_forms.specs.Rules.Points.{AreRanges};
ghost use Rattle.burr_container.specs.Rules.Plans.{live_slots, over_symbols, place_over_symbols};
ghost use Rattle.burr_container.specs.Views.Refs.{frame_of};
ghost use Rattle.burr_frames.specs.Rules.SpaceRules.{AllSmallPlaces};
ghost use Rattle.burr_frames.specs.Rules.Starts.{start_state, home_position};
ghost use Rattle.burr_frames.specs.Rules.FramedPlans.{framed};
ghost use Rattle.burr_frames.specs.Rules.States.{state_of, live_ranges, numbered, region_of};
ghost use Rattle.burr_frames.specs.Views.StateViews.{IsSmallSlot};
ghost use Rattle.burr_frames.specs.Views.Changes.{at_cost, with_operand, without_top, with_form};
ghost use Rattle.burr_frames.specs.Rules.ControlRules.{guarded};
ghost use Rattle.burr_frames.specs.Views.Ranges.{AllInReach};
ghost use Rattle.burr_frames.specs.Views.Breaks.{HoldsOrBreaks, Pays};

use crate::forms::{Region, Within, lie_within, number_form, one_less, placed};
use crate::rule::{Break, Rule};
use arrayvec::ArrayVec;
use burr_code::Placement;
use burr_code::limits::{MOST_OPERANDS, MOST_PIECES, MOST_STATE_GUARDS, SLOTS};
use burr_container::{FormOffset, FrameRef};
use burr_forms::{Form, NotNegative, first_failing};
pub use meeting::{Miss, arrives, meets_entry, meets_exit};
use std::marker::Model;

/// What is known where an instruction stands, at all points of its symbols at once: forms in place
/// of numbers. The numbers of all forms lie within ±2^40.
#[derive(Drop)]
pub struct State {
    /// Of each symbol, both ends in it.
    ranges: ArrayVec<(i32, i32), SLOTS>,
    /// Forms that are negative at no point.
    guards: ArrayVec<Form, MOST_STATE_GUARDS>,
    /// None where nothing is known of a slot's value.
    slots: [Option<Form>; SLOTS],
    /// The top last.
    operands: ArrayVec<Form, MOST_OPERANDS>,
    places: ArrayVec<Placement<FormOffset>, MOST_PIECES>,
    /// The current tray.
    tray: u8,
    /// The pieces of the current tray that are gripped: bit p is piece p.
    grip: u32,
    /// How many steps may still be made at most.
    cost: Form,
}

impl Model for State {
    ghost use Rattle.burr_frames.specs.Rules.States.{AbstractState};
    ghost use Rattle.burr_frames.specs.Views.StateViews.{abstract_state, IsSmallState};

    ghost Value = { AbstractState };

    ghost view = { λ s. abstract_state s.ranges.items s.guards.items s.slots s.operands.items
        s.places.items s.tray s.grip s.cost };

    ghost invariant = { λ s. IsSmallState (abstract_state s.ranges.items s.guards.items s.slots
        s.operands.items s.places.items s.tray s.grip s.cost) };
}

impl State {
    /// Of each symbol, both ends in it.
    pub fn ranges(&self) -> &[(i32, i32)]
        ensures ranges { result.now ≡ self.now.ranges }
        ensures few { length result.now ≤ 8 }
    {
        self.ranges.as_slice()
    }

    /// The form in slot v; None where nothing is known of it, or there is no such slot.
    pub fn slot(&self, v: u8) -> Option<Form>
        ensures slot { get_or self.now.slots v None ≡ result }
        ensures small { IfSome result (λ form. (v < 8) × IsSmallForm form) }
    {
        *self.slots.get(usize::from(v))?
    }

    /// The operands, the top last.
    pub fn operands(&self) -> &[Form]
        ensures operands { reverse result.now ≡ self.now.operands }
        ensures few { length result.now ≤ MOST_OPERANDS }
        ensures small { AllSmallForms result.now }
    {
        self.operands.as_slice()
    }

    /// Where the pieces are.
    pub fn places(&self) -> &[Placement<FormOffset>]
        ensures places { result.now ≡ self.now.places }
        ensures few { length result.now ≤ MOST_PIECES }
        ensures small { AllSmallPlaces result.now }
    {
        self.places.as_slice()
    }

    /// The current tray.
    pub fn tray(&self) -> u8
        ensures { result ≡ self.now.tray }
    {
        self.tray
    }

    /// The pieces of the current tray that are gripped: bit p is piece p.
    pub fn grip(&self) -> u32
        ensures { result ≡ self.now.grip }
    {
        self.grip
    }

    /// How many steps may still be made at most.
    pub fn cost(&self) -> Form
        ensures cost { result ≡ self.now.cost }
        ensures small { IsSmallForm result }
    {
        self.cost
    }

    /// The state with this many pieces, 32 at most, all at home in tray 0, with nothing gripped;
    /// nothing is known of the slots, and the cost is 0.
    pub fn at_home(pieces: u8) -> State
        requires { pieces ≤ 32 }
        ensures { (homes : List (List CellOf)) → length homes ≡ pieces
            → result ≡ start_state homes }
    {
        State {
            ranges: ArrayVec::new(),
            guards: ArrayVec::new(),
            slots: [None; SLOTS],
            operands: ArrayVec::new(),
            places: home_places(pieces),
            tray: 0,
            grip: 0,
            cost: number_form(0),
        }
    }

    /// What a frame says: a symbol for each live slot, which is the slot's form.
    pub fn of(frame: &FrameRef<'_>) -> State
        ensures { result ≡ state_of (framed (frame_of frame.now)) }
    {
        let (ranges, slots) = symbols(frame);
        State {
            ranges,
            guards: guards(frame),
            slots,
            operands: operands(frame),
            places: places(frame),
            tray: frame.tray(),
            grip: frame.grip(),
            cost: frame.cost(),
        }
    }

    /// The same state.
    pub(super) fn copied(&self) -> State
        ensures { result ≡ self.now }
    {
        State {
            ranges: copied(self.ranges.as_slice()),
            guards: copied(self.guards.as_slice()),
            slots: copied_slots(&self.slots),
            operands: copied(self.operands.as_slice()),
            places: copied(self.places.as_slice()),
            tray: self.tray,
            grip: self.grip,
            cost: self.cost,
        }
    }

    /// What may still be spent is now this.
    pub(super) fn set_cost(&mut self, cost: Form)
        requires { IsSmallForm cost }
        ensures { self.new ≡ at_cost cost self.old }
    {
        self.cost = cost;
    }

    /// Puts a form on the operands. There is room, the caller's condition.
    pub(super) fn put(&mut self, form: Form)
        requires room { length self.old.operands < 8 }
        requires small { IsSmallForm form }
        ensures { self.new ≡ with_operand form self.old }
    {
        self.operands.push(form);
    }

    /// Takes the topmost operand off. There is one, the caller's condition.
    pub(super) fn take_off(&mut self)
        requires { 0 < length self.old.operands }
        ensures left { self.new ≡ without_top self.old }
        ensures room { length self.new.operands < 8 }
    {
        let left = self.operands.len() - 1;
        self.operands.truncate(left);
    }

    /// Puts a form in slot v.
    pub(super) fn set_slot(&mut self, v: u8, form: Form)
        requires slot { v < 8 }
        requires small { IsSmallForm form }
        ensures { self.new ≡ with_form v form self.old }
    {
        self.slots[usize::from(v)] = Some(form);
    }

    /// A guard more. There is room, the caller's condition.
    pub(super) fn add_guard(&mut self, guard: Form)
        requires room { length self.old.guards < 8 }
        requires small { IsSmallForm guard }
        ensures { self.new ≡ guarded guard self.old }
    {
        self.guards.push(guard);
    }

    /// Whether there is no room for a guard more.
    pub(super) fn guards_are_full(&self) -> bool
        ensures { IsTrue (not result) ↔ (length self.now.guards < 8) }
    {
        self.guards.is_full()
    }

    /// The state's points.
    pub(super) fn region(&self) -> Region<'_>
        ensures points { region result.ranges.now result.guards.now ≡ region_of self.now }
        ensures few { length result.guards.now ≤ 8 }
    {
        Region {
            ranges: self.ranges.as_slice(),
            guards: self.guards.as_slice(),
        }
    }

    /// That a form is negative at no point; else the rule is broken at the first where it is.
    pub(super) fn never_negative(&self, form: &Form, rule: Rule) -> Result<(), Break>
        requires { IsSmallForm form.now }
        ensures { HoldsOrBreaks self.now (λ point. pos 0 ≤ℤ value point form.now) rule result }
    {
        let here = self.region();
        if here.shows_not_negative(form) {
            return Ok(());
        }
        let forms = [*form];
        let condition = NotNegative { forms: &forms };
        match first_failing(here.ranges, here.guards, &condition) {
            None => Ok(()),
            Some(point) => Err(Break::at(rule, Some(point))),
        }
    }

    /// That no value of some forms is farther from 0 than this; else the rule is broken at the
    /// first point where one is. There are at most 120 forms, the caller's condition.
    pub(super) fn stays_within(&self, forms: &[Form], reach: u16, rule: Rule) -> Result<(), Break>
        requires few { length forms.now ≤ 120 }
        requires small { AllSmallForms forms.now }
        ensures { HoldsOrBreaks self.now (λ point. AllInReach reach (values point forms.now))
            rule result }
    {
        let here = self.region();
        if lie_within(here.ranges, forms, reach) {
            return Ok(());
        }
        let condition = Within { forms, reach };
        match first_failing(here.ranges, here.guards, &condition) {
            None => Ok(()),
            Some(point) => Err(Break::at(rule, Some(point))),
        }
    }

    /// The cost after one step: one less, and negative at no point.
    pub(super) fn paid(&self) -> Result<Form, Break>
        ensures { Pays self.now result }
    {
        let cost = one_less(&self.cost)?;
        self.never_negative(&cost, Rule::CostTooLow)?;
        Ok(cost)
    }
}

/// The places of this many pieces, all at home in tray 0.
fn home_places(pieces: u8) -> ArrayVec<Placement<FormOffset>, MOST_PIECES>
    requires { pieces ≤ 32 }
    ensures places { result.items ≡ replicate pieces (On 0 home_position) }
    ensures small { AllSmallPlaces result.items }
{
    let zero = number_form(0);
    let mut places = ArrayVec::new();
    for _ in 0..pieces {
        places.push(Placement::On {
            tray: 0,
            position: FormOffset {
                x: zero,
                y: zero,
                z: zero,
            },
        });
    }
    places
}

/// The ranges of the live slots, and of each of these slots its symbol.
fn symbols(frame: &FrameRef<'_>) -> (ArrayVec<(i32, i32), SLOTS>, [Option<Form>; SLOTS])
    ensures ranges { result.0.items ≡ live_ranges (frame_of frame.now).slots }
    ensures are { AreRanges result.0.items }
    ensures slots { result.1 ≡ numbered 0 (frame_of frame.now).slots }
    ensures small { All IsSmallSlot result.1 }
{
    let mut ranges = ArrayVec::new();
    let mut slots = [None; SLOTS];
    for v in 0..SLOTS as u8 {
        let Some((low, high)) = frame.slot(v) else {
            continue;
        };
        slots[usize::from(v)] = Some(symbol(ranges.len()));
        ranges.push((i32::from(low), i32::from(high)));
    }
    (ranges, slots)
}

/// The form of a symbol.
pub(super) fn symbol(number: usize) -> Form
    requires { number < 8 }
    ensures symbol { result ≡ symbol_of number }
    ensures small { IsSmallForm result }
{
    let mut coefs = [0; SLOTS];
    coefs[number] = 1;
    Form { constant: 0, coefs }
}

/// The guards over symbols.
fn guards(frame: &FrameRef<'_>) -> ArrayVec<Form, MOST_STATE_GUARDS>
    ensures guards { result.items
        ≡ map (over_symbols (live_slots frame.now.slots)) (frame_of frame.now).guards }
    ensures small { AllSmallForms result.items }
{
    let mut guards = ArrayVec::new();
    for n in 0..frame.guard_count() {
        guards.push(frame.guard(n));
    }
    guards
}

/// The operands over symbols, the bottom first.
fn operands(frame: &FrameRef<'_>) -> ArrayVec<Form, MOST_OPERANDS>
    ensures operands { result.items
        ≡ map (over_symbols (live_slots frame.now.slots)) (frame_of frame.now).stack }
    ensures small { AllSmallForms result.items }
{
    let mut operands = ArrayVec::new();
    for n in 0..frame.stack_count() {
        operands.push(frame.stack(n));
    }
    operands
}

/// The places by forms over symbols.
fn places(frame: &FrameRef<'_>) -> ArrayVec<Placement<FormOffset>, MOST_PIECES>
    ensures places { result.items
        ≡ map (place_over_symbols (live_slots frame.now.slots)) (frame_of frame.now).places }
    ensures small { AllSmallPlaces result.items }
{
    let mut places = ArrayVec::new();
    for p in 0..frame.piece_count() {
        places.push(placed(frame.place(p)));
    }
    places
}

/// These elements, for which there is room: the caller's condition.
pub(super) fn copied<T: Copy + Default, const N: usize>(from: &[T]) -> ArrayVec<T, N>
    requires { length from.now ≤ N }
    ensures { result.items ≡ from.now }
{
    let mut to = ArrayVec::new();
    extend(&mut to, from);
    to
}

/// The same forms.
pub(super) fn copied_slots(from: &[Option<Form>; SLOTS]) -> [Option<Form>; SLOTS]
    ensures { result ≡ from.now }
{
    let mut to = [None; SLOTS];
    for v in 0..SLOTS {
        to[v] = from[v];
    }
    to
}

/// Puts elements after those of a list. There is room, the caller's condition.
pub(super) fn extend<T: Copy + Default, const N: usize>(list: &mut ArrayVec<T, N>, more: &[T])
    requires { length list.old.items + length more.now ≤ N }
    ensures { list.new.items ≡ list.old.items ++ more.now }
{
    if list.try_extend_from_slice(more).is_err() {
        unreachable!();
    }
}
