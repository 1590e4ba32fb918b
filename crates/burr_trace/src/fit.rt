//! Numbers that were seen, as forms over slots.

use burr_code::limits::SLOTS;
use std::alloc::{AllocError, Global};
use std::fmt;

/// A set of slots: bit v is slot v.
pub type Slots = u8;

/// The unknown numbers of a form: its constant, and a factor for each slot.
const UNKNOWNS: usize = SLOTS + 1;

/// How many numbers a point has.
pub const PLACES: usize = UNKNOWNS + 1;

/// Where the number of a point stands in it, after a one and what each slot held.
pub const NUMBER: usize = UNKNOWNS;

/// A number that was seen once, after a one and what each slot held then. A form gives it where its constant
/// and its factors, each times the number in its place, have the last number as their sum.
pub type Point = [i64; PLACES];

/// The sets of slots that a form may use: first those with the fewest slots beside the ones that
/// are had anyway, and of these the smallest.
pub fn slot_choices(alloc: Global, had: Slots, others: Slots) -> Result<Vec<Slots>, AllocError> {
    let mut choices = Vec::new(alloc);
    for choice in 0..=Slots::MAX {
        if choice & !(had | others) == 0 {
            choices.push(choice)?;
        }
    }
    choices.sort_by_key(|choice| {
        let more = *choice & others;
        (more.count_ones(), choice.count_ones(), more)
    })?;
    Ok(choices)
}

/// The least and the greatest number at each place of some points.
pub fn ranges_of(points: &[Point]) -> [(i64, i64); PLACES] {
    let mut ranges = [(i64::MAX, i64::MIN); PLACES];
    for point in points {
        for (range, number) in ranges.iter_mut().zip(point) {
            *range = (range.0.min(*number), range.1.max(*number));
        }
    }
    ranges
}

/// A point, without what other slots than these held.
pub fn over(slots: Slots, point: &Point) -> Point {
    let mut left = *point;
    for slot in 0..SLOTS {
        if slots & (1 << slot) == 0 {
            left[slot + 1] = 0;
        }
    }
    left
}

/// What is found of a number: a form of the slots that gives it at each point, or how far it goes.
#[derive(Clone, Copy, Drop)]
pub enum Fit {
    Form(FittedForm),
    Range(i64, i64),
}

impl Fit {
    /// The fit of a number at these points: the form over the first of these sets of slots over
    /// which there is a form, else a range.
    pub fn of(points: &[Point], choices: &[Slots]) -> Fit {
        for slots in choices {
            if let Some(form) = FittedForm::through(points, *slots) {
                return Fit::Form(form);
            }
        }
        let (least, greatest) = ranges_of(points)[NUMBER];
        Fit::Range(least, greatest)
    }

    /// Whether a form is found.
    pub fn is_form(&self) -> bool {
        matches!(self, Fit::Form(_))
    }

    /// The slots of the form that is found.
    pub fn slots(&self) -> Slots {
        match self {
            Fit::Form(form) => form.slots(),
            Fit::Range(..) => 0,
        }
    }
}

impl fmt::Display for Fit {
    fn fmt<W: fmt::Write>(&self, f: &mut fmt::Formatter<W>) -> fmt::Result {
        match self {
            Fit::Form(form) => write!(f, "{form}"),
            Fit::Range(least, greatest) => write!(f, "{least} to {greatest}"),
        }
    }
}

/// A form over slots: its constant, and a factor for each slot.
#[derive(Clone, Copy, Default, Drop, PartialEq, Eq)]
pub struct FittedForm(pub [i64; UNKNOWNS]);

impl FittedForm {
    /// The form over these slots that gives the number at each point; None where there is no such
    /// form, or its factors are not whole.
    fn through(points: &[Point], slots: Slots) -> Option<FittedForm> {
        let mut equations = Equations::default();
        for point in points {
            equations.add(&over(slots, point))?;
        }
        equations.solve()
    }

    /// A form that is at least the number at each point, with factors for these slots as the number grows
    /// from the least to the greatest that they hold.
    pub fn above(points: &[Point], slots: Slots) -> FittedForm {
        let mut form = FittedForm::default();
        for slot in 0..SLOTS {
            if slots & (1 << slot) != 0 {
                form.0[slot + 1] = growth(points, slot + 1);
            }
        }
        let wanting = points
            .iter()
            .map(|point| point[NUMBER].saturating_sub(form.at(point)));
        form.0[0] = wanting.max().unwrap_or(0);
        form
    }

    /// The slots that it has.
    fn slots(&self) -> Slots {
        let mut slots = 0;
        for slot in 0..SLOTS {
            if self.0[slot + 1] != 0 {
                slots |= 1 << slot;
            }
        }
        slots
    }

    /// What is left of it without another form.
    pub fn less(&self, other: &FittedForm) -> FittedForm {
        let mut left = *self;
        for (number, others) in left.0.iter_mut().zip(&other.0) {
            *number = number.saturating_sub(*others);
        }
        left
    }

    /// The number that it gives where the slots held what they did at a point.
    pub fn at(&self, point: &Point) -> i64 {
        let mut number: i64 = 0;
        for (factor, held) in self.0.iter().zip(point) {
            number = number.saturating_add(factor.saturating_mul(*held));
        }
        number
    }
}

impl fmt::Display for FittedForm {
    fn fmt<W: fmt::Write>(&self, f: &mut fmt::Formatter<W>) -> fmt::Result {
        let constant = self.0[0];
        write!(f, "{constant}")?;
        for (slot, factor) in self.0[1..].iter().enumerate() {
            if *factor != 0 {
                write!(f, "{factor:+}v{slot}")?;
            }
        }
        Ok(())
    }
}

/// By how much the greatest number grows with what stands at a place, a unit, from the least to the greatest
/// that stands there; more rather than less.
fn growth(points: &[Point], place: usize) -> i64 {
    let (least, greatest) = ranges_of(points).get(place).copied().unwrap_or((0, 0));
    let grown = greatest_at(points, place, greatest).saturating_sub(greatest_at(
        points, place, least,
    ));
    let units = greatest.saturating_sub(least);
    let rounded_up = grown.saturating_add(units.saturating_sub(1));
    rounded_up.checked_div_euclid(units).unwrap_or(0)
}

/// The greatest number at the points that hold this at a place.
fn greatest_at(points: &[Point], place: usize, held: i64) -> i64 {
    let found = points
        .iter()
        .filter(|point| point.get(place) == Some(&held));
    found.map(|point| point[NUMBER]).max().unwrap_or(i64::MIN)
}

/// The equations of points, each with the first unknown number that it has, in echelon form.
#[derive(Clone, Copy, Default)]
struct Equations {
    by_unknown: [Option<Point>; UNKNOWNS],
}

impl Equations {
    /// Adds an equation; none where no numbers meet it beside the others.
    fn add(&mut self, equation: &Point) -> Option<()> {
        let mut left = *equation;
        for unknown in 0..UNKNOWNS {
            if left[unknown] == 0 {
                continue;
            }
            match &self.by_unknown[unknown] {
                Some(other) => left = without(&left, unknown, other)?,
                None => {
                    self.by_unknown[unknown] = Some(left);
                    return Some(());
                }
            }
        }
        if left[NUMBER] == 0 { Some(()) } else { None }
    }

    /// A form with whole numbers that meet all of them, with 0 for each unknown number that may be any.
    fn solve(&self) -> Option<FittedForm> {
        let mut found: [i64; UNKNOWNS] = [0; UNKNOWNS];
        for unknown in (0..UNKNOWNS).rev() {
            if let Some(equation) = &self.by_unknown[unknown] {
                let mut left = equation[NUMBER];
                for (coefficient, number) in equation.iter().zip(&found) {
                    left = left.checked_sub(coefficient.checked_mul(*number)?)?;
                }
                if left.checked_rem(equation[unknown])? != 0 {
                    return None;
                }
                found[unknown] = left.checked_div(equation[unknown])?;
            }
        }
        Some(FittedForm(found))
    }
}

/// What is left of an equation without an unknown number, by another equation that has that, in the least
/// whole numbers; none where the numbers are too great.
fn without(own: &Point, unknown: usize, other: &Point) -> Option<Point> {
    let (coefficient, others) = (*own.get(unknown)?, *other.get(unknown)?);
    let mut left = [0; PLACES];
    let mut divisor = 0;
    for n in 0..PLACES {
        let product = own[n].checked_mul(others)?;
        left[n] = product.checked_sub(other[n].checked_mul(coefficient)?)?;
        divisor = common_divisor(divisor, left[n]);
    }
    Some(left.map(|number| number.checked_div(divisor).unwrap_or(number)))
}

/// The greatest number that divides both; 0 of two zeros.
fn common_divisor(a: i64, b: i64) -> i64 {
    let (mut a, mut b) = (a, b);
    for _ in 0..i64::BITS.saturating_mul(2) {
        match a.checked_rem(b) {
            Some(rest) => (a, b) = (b, rest),
            None => return a,
        }
    }
    1
}
