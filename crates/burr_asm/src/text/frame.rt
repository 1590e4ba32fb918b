ghost use Rattle.std.specs.Prelude.{◌≡◌, ◌<◌, ◌≤◌, ◌++◌, ◌∷◌, [], false, true, IfSome, MatchOption, MatchResult, None, ◌&&◌};
ghost use Rattle.burr_code.specs.declared.limits.TheConstants.{SLOTS};
ghost use Rattle.burr_container.specs.Rules.Plans.{live_slots};
ghost use Rattle.burr_container.specs.Views.OwnedPlaces.{placement_of};
ghost use Rattle.burr_plantext.specs.Rules.Checks.{cost_check, grip_check, is_empty, live_in, piece_check, is_spot};
ghost use Rattle.burr_plantext.specs.Rules.Meaning.{frame_in, place_in};
ghost use Rattle.burr_plantext.specs.Rules.Right.{conditions as source_of};
ghost use Rattle.burr_plantext.specs.Rules.Sources.{Conditions as ConditionsSource, FrameSource};
ghost use Rattle.burr_plantext.specs.Rules.Written.{form_in, is_form_over, is_within};
ghost use Rattle.burr_plantext.specs.Rules.Lines.{GripWords as GripSource, GuardLine, SlotLine, StackLine};
ghost use Rattle.burr_asm.specs.declared.fault.AsmFault.TheVariants.{P3};
ghost use Rattle.burr_asm.specs.Views.Faults.{IsRefusal};
ghost use Rattle.burr_asm.specs.Views.Frames.{form_check, is_grip, AreFor, IsGrip, IsSlotAbove, AddsPlace};
ghost use Rattle.burr_asm.specs.Views.FrameLines.{costed, with_piece, AddsCondition};
ghost use Rattle.burr_asm.specs.Views.LineWords.{grip_words, line_words, piece_words, slot_words, place_words};

use crate::fault::AsmFault;
use crate::text::form::FormWord;
use crate::text::line::{GripWords, LineForm, PieceWords, PlaceWords, SlotWords};
use crate::text::numbers::{index, range, slot, tray};
use crate::text::words::{NumberWord, piece_set};
use burr_code::limits::{MOST_GUARDS, MOST_OPERANDS, SLOTS};
use burr_container::{Frame, Place, PlanForm};
use std::alloc::Global;
use std::marker::Model;
use std::mem::replace;

/// The current tray and the grip, with which frames begin.
#[derive(Clone, Copy)]
pub struct Grip {
    pub tray: u8,
    pub set: u32,
}

impl Grip {
    /// What the words say in a plan with this many pieces.
    pub fn of(words: GripWords<'_>, pieces: u8, line: usize) -> Result<Grip, AsmFault>
        requires { pieces ≤ 32 }
        ensures { MatchResult result
            (λ grip. (grip_check pieces (grip_words words.entry) ≡ None)
            × IsGrip grip (grip_words words.entry))
            (IsRefusal (grip_check pieces (grip_words words.entry)) line) }
    {
        match Grip::in_range(words, pieces) {
            Some(grip) => Ok(grip),
            None => Err(AsmFault::P3 { line }),
        }
    }

    /// What the words say, where the tray and all pieces are in their ranges.
    fn in_range(words: GripWords<'_>, pieces: u8) -> Option<Grip>
        requires { pieces ≤ 32 }
        ensures { MatchOption result (is_grip pieces (grip_words words.entry) ≡ false) (λ grip.
            (is_grip pieces (grip_words words.entry) ≡ true)
            × IsGrip grip (grip_words words.entry)) }
    {
        let tray = tray(words.tray)?;
        let set = piece_set(words.set, pieces)?;
        Some(Grip { tray, set })
    }
}

/// A frame before its cost: slots first, then guards, then operands.
#[derive(Drop)]
pub struct Conditions {
    grip: Grip,
    slots: [Option<(i16, i16)>; SLOTS],
    guards: Vec<PlanForm>,
    stack: Vec<PlanForm>,
}

impl Model for Conditions {
    ghost use Rattle.burr_asm.specs.Views.Frames.{ConditionParts};

    ghost Value = { ConditionParts };

    ghost view = { λ c.
        record {
          tray = c.grip.tray;
          grip = c.grip.set;
          slots = c.slots;
          guards = c.guards.items;
          stack = c.stack.items;
        } };
}

impl Conditions {
    /// A frame whose first line has been read, and no other.
    pub fn new(alloc: Global, grip: Grip) -> Conditions
        ensures { (words : GripSource) → IsGrip grip words
            → AreFor result (source_of words [] [] []) }
    {
        Conditions {
            grip,
            slots: [None; SLOTS],
            guards: Vec::new(alloc),
            stack: Vec::new(alloc),
        }
    }

    /// A line before the cost: slots first, then guards, then operands.
    pub fn add(&mut self, form: LineForm<'_>, line: usize) -> Result<(), AsmFault>
        ensures { AddsCondition self.old (line_words form.entry) line self.new result }
    {
        match form {
            LineForm::Slot(words) => self.add_slot(words, line),
            LineForm::Guard(form) => self.add_guard(form, line),
            LineForm::Stack(form) => self.add_operand(form, line),
            _ => Err(AsmFault::P1 { line }),
        }
    }

    /// Whether a slot may stand next: there are no guards and no operands yet.
    fn takes_slots(&self) -> bool
        ensures { result ≡ (is_empty self.now.guards && is_empty self.now.stack) }
    {
        self.guards.is_empty() && self.stack.is_empty()
    }

    /// Whether a guard may stand next: there are no operands yet.
    fn takes_guards(&self) -> bool
        ensures { result ≡ is_empty self.now.stack }
    {
        self.stack.is_empty()
    }

    /// A line `slot`, before all guards and operands.
    fn add_slot(&mut self, words: SlotWords<'_>, line: usize) -> Result<(), AsmFault>
        ensures { AddsCondition self.old (SlotLine (slot_words words.entry)) line self.new result }
    {
        if !self.takes_slots() {
            return Err(AsmFault::P1 { line });
        }
        match slot_above(&self.slots, words) {
            Some((slot, range)) => {
                self.slots[usize::from(slot)] = Some(range);
                Ok(())
            }
            None => Err(AsmFault::P3 { line }),
        }
    }

    /// A line `guard`, before all operands.
    fn add_guard(&mut self, form: FormWord<'_>, line: usize) -> Result<(), AsmFault>
        ensures { AddsCondition self.old (GuardLine form.entry.bytes.now) line self.new result }
    {
        if !self.takes_guards() {
            return Err(AsmFault::P1 { line });
        }
        let live = live_slots(&self.slots);
        add_form(&mut self.guards, MOST_GUARDS, &live, form, line)
    }

    /// A line `stack`.
    fn add_operand(&mut self, form: FormWord<'_>, line: usize) -> Result<(), AsmFault>
        ensures { AddsCondition self.old (StackLine form.entry.bytes.now) line self.new result }
    {
        let live = live_slots(&self.slots);
        add_form(&mut self.stack, MOST_OPERANDS, &live, form, line)
    }

    /// A line `cost`: takes out the frame, in which no piece has a place yet.
    pub fn take_frame(
        &mut self,
        alloc: Global,
        form: FormWord<'_>,
        line: usize,
    ) -> Result<Frame, AsmFault>
        ensures { (c : ConditionsSource) → AreFor self.old c → MatchResult result
            (λ frame. (cost_check c form.entry.bytes.now ≡ None)
            × (frame ≡ frame_in (costed c form.entry.bytes.now)))
            (IsRefusal (cost_check c form.entry.bytes.now) line) }
    {
        let Some(cost) = form.value(&live_slots(&self.slots)) else {
            return Err(AsmFault::P3 { line });
        };
        Ok(Frame {
            tray: self.grip.tray,
            grip: self.grip.set,
            slots: self.slots,
            guards: replace(&mut self.guards, Vec::new(alloc)),
            stack: replace(&mut self.stack, Vec::new(alloc)),
            cost,
            places: Vec::new(alloc),
        })
    }
}

/// The slot of a line, with its range, where it stands above all live slots.
fn slot_above(slots: &[Option<(i16, i16)>; SLOTS], words: SlotWords<'_>) -> Option<(u8, (i16, i16))>
    ensures few { IfSome result (λ found. found.0 < SLOTS) }
    ensures value { IsSlotAbove slots.now (slot_words words.entry) result }
{
    let slot = slot(words.slot)?;
    let range = range(words.range.low, words.range.high)?;
    let live = live_slots(slots);
    (!live[usize::from(slot)..].contains(&true)).then_some((slot, range))
}

/// Adds the form of a line, over these live slots, to those before it; there may be `most` in all.
pub fn add_form(
    forms: &mut Vec<PlanForm>,
    most: usize,
    live: &[bool; SLOTS],
    words: FormWord<'_>,
    line: usize,
) -> Result<(), AsmFault>
    ensures { MatchResult result
        (λ _done. (form_check most live.now forms.old.items words.entry.bytes.now ≡ None)
        × (forms.new.items ≡ forms.old.items ++ form_in words.entry.bytes.now ∷ []))
        (IsRefusal (form_check most live.now forms.old.items words.entry.bytes.now) line) }
{
    let Some(form) = words.value(live) else {
        return Err(AsmFault::P3 { line });
    };
    if forms.len() >= most {
        return Err(AsmFault::P4 { line });
    }
    forms.push(form)?;
    Ok(())
}

/// Which slots are live.
fn live_slots(slots: &[Option<(i16, i16)>; SLOTS]) -> [bool; SLOTS]
    ensures { result ≡ live_slots slots.now }
{
    let [a, b, c, d, e, f, g, h] = *slots;
    [
        a.is_some(),
        b.is_some(),
        c.is_some(),
        d.is_some(),
        e.is_some(),
        f.is_some(),
        g.is_some(),
        h.is_some(),
    ]
}

/// Takes out a frame whose pieces all have their places.
pub fn take_frame(alloc: Global, frame: &mut Frame) -> Frame
    ensures { result ≡ frame.old }
{
    Frame {
        tray: frame.tray,
        grip: frame.grip,
        slots: frame.slots,
        guards: replace(&mut frame.guards, Vec::new(alloc)),
        stack: replace(&mut frame.stack, Vec::new(alloc)),
        cost: frame.cost,
        places: replace(&mut frame.places, Vec::new(alloc)),
    }
}

/// A line `at` of the pieces of a frame.
pub fn add_piece(frame: &mut Frame, words: PieceWords<'_>, line: usize) -> Result<(), AsmFault>
    ensures { (f : FrameSource) → frame.old ≡ frame_in f → MatchResult result
        (λ _done.
        (piece_check (live_in f.conditions) f.pieces (piece_words words.entry) ≡ None)
        × (frame.new ≡ frame_in (with_piece f (piece_words words.entry))))
        (IsRefusal (piece_check (live_in f.conditions) f.pieces (piece_words words.entry)) line) }
{
    let live = live_slots(&frame.slots);
    add_place(&mut frame.places, &live, words, line)
}

/// The place that words say, where its numbers are in their ranges and its forms are over these
/// live slots.
fn place(words: PlaceWords<'_>, live: &[bool; SLOTS]) -> Option<Place>
    ensures { MatchOption result (is_spot live.now (place_words words.entry) ≡ false) (λ place.
        (is_spot live.now (place_words words.entry) ≡ true)
        × (placement_of place ≡ place_in (place_words words.entry))) }
{
    match words {
        PlaceWords::Apart => Some(Place::Apart),
        PlaceWords::On(word, x, y, z) => {
            let (x, y, z) = (x.value(live)?, y.value(live)?, z.value(live)?);
            Some(Place::On(tray(word)?, x, y, z))
        }
    }
}

/// Whether the word is the number of the next piece, where the first `count` have their places.
fn is_next(word: NumberWord<'_>, count: usize) -> bool
    ensures { result ≡ is_within count count word.entry.bytes.now }
{
    match index(word) {
        Some(piece) => piece == count,
        None => false,
    }
}

/// Adds the place of one more piece, which has to be the next.
pub fn add_place(
    places: &mut Vec<Place>,
    live: &[bool; SLOTS],
    words: PieceWords<'_>,
    line: usize,
) -> Result<(), AsmFault>
    ensures { AddsPlace live.now places.old.items (piece_words words.entry) line
        places.new.items result }
{
    if !is_next(words.piece, places.len()) {
        return Err(AsmFault::P1 { line });
    }
    match place(words.place, live) {
        Some(place) => {
            places.push(place)?;
            Ok(())
        }
        None => Err(AsmFault::P3 { line }),
    }
}
