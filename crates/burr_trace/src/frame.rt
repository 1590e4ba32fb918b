//! The frame that all visits of a place agree with.

use crate::fit::{Fit, FittedForm, NUMBER, PLACES, Point, Slots, over, ranges_of, slot_choices};
use crate::trace::Snapshot;
use arrayvec::ArrayVec;
use burr_code::is_in_set;
use burr_code::limits::{MOST_GUARDS, MOST_PIECES, SLOTS};
use burr_lines::Report;
use std::alloc::{AllocError, Global};
use std::collections::BTreeMap;
use std::fmt;

/// What held once when a run was at a place, and the steps that its activation still made; 0 where it
/// returned.
#[derive(Clone, Copy)]
pub struct Visit<'x> {
    pub snapshot: &'x Snapshot,
    pub cost: u64,
}

impl Visit<'_> {
    /// The cost, as a point.
    fn point(&self) -> Point {
        let cost = i64::try_from(self.cost).unwrap_or(i64::MAX);
        self.snapshot.point(cost)
    }
}

/// What a frame is to have.
#[derive(Clone, Copy, Default)]
pub struct Outline {
    /// Its slots, of those that held a number at each visit.
    pub slots: Slots,
    /// Further ones that its forms may have, where those do not do.
    pub others: Slots,
    pub has_guards: bool,
    /// The number of parameters of the procedure whose exit frame it is; none where it is a label's.
    pub parameters: Option<usize>,
}

/// The frame that all visits of a place agree with, as far as there is one.
#[derive(Drop)]
pub struct Frame {
    /// Its lines. What no line of a frame can say is a comment.
    pub lines: Report,
    /// Whether each part of it is found.
    is_whole: bool,
    /// The slots of its forms, but that of its cost.
    pub slots_in_forms: Slots,
    /// How many steps may still come where no slot is live.
    pub cost_at_start: i64,
}

impl Frame {
    /// The frame of these visits. It has no lines where there were none.
    pub fn of(alloc: Global, visits: &[Visit<'_>], outline: &Outline) -> Result<Frame, AllocError> {
        let mut frame = Frame {
            lines: Report::new(alloc),
            is_whole: true,
            slots_in_forms: 0,
            cost_at_start: 0,
        };
        let Some(first) = visits.first() else {
            return Ok(frame);
        };
        let live = visits
            .iter()
            .fold(Slots::MAX, |live, visit| live & visit.snapshot.live());
        let slots = live & outline.slots;
        // Numbers alone meet one visit.
        let had = if visits.len() == 1 { 0 } else { slots };
        let choices = slot_choices(alloc, had, live & outline.others)?;
        let costs: Vec<Point> = visits.iter().map(|visit| visit.point()).collect(alloc)?;
        let fitting = Fitting {
            alloc,
            visits,
            slots,
            choices: &choices,
            costs: &costs,
            ranges: ranges_of(&costs),
        };
        fitting.add_to(&mut frame, outline, first.snapshot)?;
        Ok(frame)
    }

    /// Why it does not stand in place of `auto`; None where it does.
    pub fn lack(&self) -> Option<&'static str> {
        if self.lines.is_empty() {
            return Some("no run comes here");
        }
        if self.is_whole {
            return None;
        }
        Some("no frame agrees with all that the runs come here with:")
    }

    /// Adds the lines of the operands.
    fn add_operands(&mut self, operands: &Option<Vec<Fit>>) {
        let Some(operands) = operands else {
            self.say(false, "stack: not always as many operands");
            return;
        };
        for operand in operands {
            self.slots_in_forms |= operand.slots();
            self.say(operand.is_form(), format_args!("stack {operand}"));
        }
    }

    /// Adds a line that says a part of it or, where that is not found, a comment.
    fn say<D: fmt::Display + Drop>(&mut self, is_found: bool, words: D) {
        let mark = if is_found { "" } else { "; " };
        self.lines.add_words(format_args!("{mark}{words}\n"));
        self.is_whole = self.is_whole && is_found;
    }
}

/// A guard, and how much less than ever it would give where the slots held any numbers of their ranges.
#[derive(Clone, Copy, Default, Drop, PartialEq, Eq)]
struct Guard {
    form: FittedForm,
    shut_out: i64,
}

/// The visits of a place, and what frames say of them.
#[derive(Clone, Copy)]
struct Fitting<'x> {
    alloc: Global,
    visits: &'x [Visit<'x>],
    slots: Slots,
    /// The sets of slots that forms may have.
    choices: &'x [Slots],
    costs: &'x [Point],
    /// How far the costs go, and what the slots held.
    ranges: [(i64, i64); PLACES],
}

impl Fitting<'_> {
    /// Adds to a frame what is found, where this is the first visit.
    fn add_to(
        &self,
        frame: &mut Frame,
        outline: &Outline,
        first: &Snapshot,
    ) -> Result<(), AllocError> {
        let operands = self.operands(first.operands.len())?;
        self.add_head(frame, outline, first);
        self.add_slots(frame, outline);
        if outline.has_guards {
            self.add_guards(frame, &operands)?;
        }
        frame.add_operands(&operands);
        if outline.parameters.is_none() {
            self.add_cost(frame)?;
        }
        for piece in 0..first.places.len() {
            self.add_place(frame, piece, first.lie(piece).tray)?;
        }
        Ok(())
    }

    /// Adds the line of the current tray and the grip.
    fn add_head(&self, frame: &mut Frame, outline: &Outline, first: &Snapshot) {
        let word = match outline.parameters {
            None => "frame",
            Some(_) => "exit",
        };
        let (tray, grip) = (first.tray, first.grip);
        for visit in self.visits {
            if (visit.snapshot.tray, visit.snapshot.grip) != (tray, grip) {
                frame.say(false, format_args!("{word}: not always one tray and grip"));
                return;
            }
        }
        let grip = Pieces(grip);
        frame.say(true, format_args!("{word} {tray} {grip}"));
    }

    /// Adds the lines of the slots or, where those after the parameters are the results, of these.
    fn add_slots(&self, frame: &mut Frame, outline: &Outline) {
        for slot in 0..SLOTS {
            let (least, greatest) = self.ranges[slot + 1];
            let is_there = self.slots & (1 << slot) != 0;
            match outline.parameters {
                None if is_there => frame.say(true, format_args!("slot {slot} {least} {greatest}")),
                Some(count) if is_there && count <= slot => {
                    frame.say(true, format_args!("result {least} {greatest}"));
                }
                _ => {}
            }
        }
    }

    /// The fits of this many operands; none where there are not always as many.
    fn operands(&self, count: usize) -> Result<Option<Vec<Fit>>, AllocError> {
        for visit in self.visits {
            if visit.snapshot.operands.len() != count {
                return Ok(None);
            }
        }
        let mut operands = Vec::new(self.alloc);
        for n in 0..count {
            operands.push(self.fit(|snapshot| snapshot.operand(n))?)?;
        }
        Ok(Some(operands))
    }

    /// The fit of a number that each visit has.
    fn fit<F: Fn(&Snapshot) -> i32>(&self, number: F) -> Result<Fit, AllocError>
        requires { F.IsAlwaysCallable number }
    {
        let mut points = Vec::new(self.alloc);
        for visit in self.visits {
            let number = i64::from(number(visit.snapshot));
            points.push(visit.snapshot.point(number))?;
        }
        Ok(Fit::of(&points, self.choices))
    }

    /// Adds the lines of guards: each difference of two slots, or of a slot and an operand, that is never
    /// negative at the visits, though the ranges of the slots would have it be less than it ever was. Where
    /// there are more than a frame may have, those that shut out most.
    fn add_guards(&self, frame: &mut Frame, operands: &Option<Vec<Fit>>) -> Result<(), AllocError> {
        let terms = self.terms(operands)?;
        let mut guards = ArrayVec::new();
        for (n, term) in terms.iter().enumerate() {
            for (m, other) in terms.iter().enumerate() {
                if n.min(m) < self.slots.count_ones() as usize {
                    self.offer_guard(&term.less(other), &mut guards);
                }
            }
        }
        for guard in &guards {
            let form = guard.form;
            frame.say(true, format_args!("guard {form}"));
        }
        Ok(())
    }

    /// The slots, and the operands that have forms.
    fn terms(&self, operands: &Option<Vec<Fit>>) -> Result<Vec<FittedForm>, AllocError> {
        let mut terms = Vec::new(self.alloc);
        for slot in 0..SLOTS {
            if self.slots & (1 << slot) != 0 {
                let mut form = FittedForm::default();
                form.0[slot + 1] = 1;
                terms.push(form)?;
            }
        }
        for operand in operands.iter().flatten() {
            if let Fit::Form(form) = operand {
                terms.push(*form)?;
            }
        }
        Ok(terms)
    }

    /// Takes a difference as a guard, where it shuts out more than one that there is no room for.
    fn offer_guard(&self, difference: &FittedForm, guards: &mut ArrayVec<Guard, MOST_GUARDS>) {
        let numbers = self.costs.iter().map(|point| difference.at(point));
        let least = numbers.min().unwrap_or(0);
        let mut guard = Guard {
            form: *difference,
            shut_out: least.saturating_sub(self.least_in_ranges(difference)),
        };
        guard.form.0[0] = guard.form.0[0].saturating_sub(least);
        if least < 0 || guard.shut_out <= 0 || guards.contains(&guard) {
            return;
        }
        if guards.is_full() {
            let strengths = guards.iter().map(|other| other.shut_out).enumerate();
            match strengths.min_by_key(|(_, shut_out)| *shut_out) {
                Some((weakest, shut_out)) if shut_out < guard.shut_out => {
                    let _ = guards.pop_at(weakest);
                }
                _ => return,
            }
        }
        let _ = guards.try_push(guard);
    }

    /// The least that a form gives where each slot may hold any number of its range.
    fn least_in_ranges(&self, form: &FittedForm) -> i64 {
        let mut ends = [0; PLACES];
        for n in 0..NUMBER {
            let (least, greatest) = self.ranges[n];
            ends[n] = if form.0[n] < 0 { greatest } else { least };
        }
        form.at(&ends)
    }

    /// Adds the line of a form that is at least the cost of each visit: the greatest where the slots hold
    /// the same, else more.
    fn add_cost(&self, frame: &mut Frame) -> Result<(), AllocError> {
        let greatest = self.greatest_costs()?;
        let form = match Fit::of(&greatest, self.choices) {
            Fit::Form(form) => form,
            Fit::Range(..) => FittedForm::above(&greatest, self.slots),
        };
        frame.cost_at_start = form.0[0];
        frame.say(true, format_args!("cost {form}"));
        Ok(())
    }

    /// Of the costs where the slots hold the same, the greatest.
    fn greatest_costs(&self) -> Result<Vec<Point>, AllocError> {
        let mut greatest: BTreeMap<Point, Point> = BTreeMap::new(self.alloc);
        for cost in self.costs {
            let mut held = over(self.slots, cost);
            held[NUMBER] = 0;
            match greatest.get_mut(&held) {
                Some(other) => other[NUMBER] = cost[NUMBER].max(other[NUMBER]),
                None => {
                    greatest.insert(held, *cost)?;
                }
            }
        }
        Ok(greatest.into_values().collect(self.alloc)?)
    }

    /// Adds the line of a piece that was in this tray at first.
    fn add_place(
        &self,
        frame: &mut Frame,
        piece: usize,
        tray: Option<u8>,
    ) -> Result<(), AllocError> {
        for visit in self.visits {
            if visit.snapshot.lie(piece).tray != tray {
                frame.say(
                    false,
                    format_args!("at {piece}: not always in one tray, or not always apart"),
                );
                return Ok(());
            }
        }
        let Some(tray) = tray else {
            frame.say(true, format_args!("at {piece} apart"));
            return Ok(());
        };
        let x = self.fit(|snapshot| snapshot.lie(piece).x)?;
        let y = self.fit(|snapshot| snapshot.lie(piece).y)?;
        let z = self.fit(|snapshot| snapshot.lie(piece).z)?;
        frame.slots_in_forms |= x.slots() | y.slots() | z.slots();
        if x.is_form() && y.is_form() && z.is_form() {
            frame.say(true, format_args!("at {piece} {tray} {x} {y} {z}"));
        } else {
            frame.say(
                false,
                format_args!("at {piece} {tray}: x {x}, y {y}, z {z}"),
            );
        }
        Ok(())
    }
}

/// A set of pieces, as frames have it: bit p is piece p.
#[derive(Clone, Copy, Drop)]
struct Pieces(u32);

impl fmt::Display for Pieces {
    fn fmt<W: fmt::Write>(&self, f: &mut fmt::Formatter<W>) -> fmt::Result {
        if self.0 == 0 {
            return write!(f, "-");
        }
        let mut separator = "";
        for piece in 0..MOST_PIECES as u8 {
            if is_in_set(self.0, piece) {
                write!(f, "{separator}{piece}")?;
                separator = ",";
            }
        }
        Ok(())
    }
}
