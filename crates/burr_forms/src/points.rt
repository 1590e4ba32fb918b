ghost use Rattle.std.specs.Prelude.{◌≡◌, ◌≤◌, ◌<◌, Some, None, length, MatchBool, MatchOption, ◌↔◌, IsTrue};
ghost use Rattle.std.specs.Iterator.{YieldsFirst, item_count};
ghost use Rattle.burr_forms.specs.Rules.Points.{points_of, guards_hold, AreGuards, AreRanges, IsRange, IsBox, padded};
ghost use Rattle.burr_forms.specs.Rules.Forms.{values, AllSmallForms, AllNear};
ghost use Rattle.burr_forms.specs.Views.Rising.{following, lows};
ghost use Rattle.burr_forms.specs.Views.Searching.{steps_of, AllBounded, sums, IsRaised, IsAfter};

use crate::form::{Form, is_small};
use crate::limits::{MOST_BOX_GUARDS, MOST_FORMS, MOST_SYMBOL_VALUE, MOST_SYMBOLS};
use arrayvec::ArrayVec;
use std::marker::Model;

/// The points of a box at which no guard is negative, each once, rising, the first symbol slowest.
/// A point has 0 for a symbol that isn't there.
#[derive(Clone, Debug, Drop)]
pub struct Points<'a> {
    ranges: &'a Box8,
    guards: &'a Guards,
    point: [i32; MOST_SYMBOLS],
    ended: bool,
}

impl<'a> Model for Points<'a> {
    ghost use Rattle.std.specs.Prelude.{◌≡◌, List, false};
    ghost use Rattle.burr_forms.specs.Rules.Forms.{Point};
    ghost use Rattle.burr_forms.specs.Rules.Points.{InBox};
    ghost use Rattle.burr_forms.specs.Views.Rising.{left};

    ghost Value = { List Point };

    ghost view = { λ p. left p.ranges.now p.guards.now p.point p.ended };

    ghost invariant = { λ p. (p.ended ≡ false) → InBox p.ranges.now p.point };
}

impl<'a> Points<'a> {
    /// The points of a box under guards, from the first one on.
    pub fn new(ranges: &'a Box8, guards: &'a Guards) -> Points<'a>
        ensures { result ≡ points_of ranges.now guards.now }
    {
        Points {
            ranges,
            guards,
            point: lowest(ranges.ranges()),
            ended: false,
        }
    }
}

impl<'a> Iterator for Points<'a> {
    type Item = [i32; MOST_SYMBOLS];

    ghost next_gives = { YieldsFirst (λ points. points) };

    ghost remaining = { item_count (λ points. points) };

    fn next(&mut self) -> Option<[i32; MOST_SYMBOLS]> {
        while !self.ended {
            let point = self.point;
            self.ended = advance(self.ranges.ranges(), &mut self.point).is_none();
            if self.guards.hold(&point) {
                return Some(point);
            }
        }
        None
    }
}

/// Values of the symbols, in their order.
pub type Point = ArrayVec<i32, MOST_SYMBOLS>;

/// A number for each of some forms. There is room for all of a state: its slots and operands, eight
/// of each, three for each of 32 pieces, and its cost.
pub type FormValues = ArrayVec<i64, MOST_FORMS>;

/// The lowest point of a box: the lowest number of each range.
pub fn lowest_point(ranges: &[(i32, i32)]) -> Point
    requires few { length ranges.now ≤ 8 }
    ensures { result.items ≡ lows ranges.now }
{
    let mut point = ArrayVec::new();
    for range in ranges {
        point.push(range.0);
    }
    point
}

/// How far the value of each form goes as a symbol goes one up.
pub fn steps_along(forms: &[Form], symbol: usize) -> FormValues
    requires many { length forms.now ≤ 120 }
    requires symbol { symbol < 8 }
    ensures { result.items ≡ steps_of symbol forms.now }
{
    let mut steps = ArrayVec::new();
    for form in forms {
        steps.push(form.coefs[symbol]);
    }
    steps
}

/// The lowest point of a box: the lowest number of each range.
fn lowest(ranges: &[(i32, i32); MOST_SYMBOLS]) -> [i32; MOST_SYMBOLS]
    ensures { result ≡ lows ranges.now }
{
    let mut point = [0; MOST_SYMBOLS];
    for symbol in 0..MOST_SYMBOLS {
        point[symbol] = ranges[symbol].0;
    }
    point
}

/// Goes on to the following point of a box, and tells the symbol whose number goes up. Where there
/// is no such point, the numbers are those of the lowest one.
pub fn advance(ranges: &[(i32, i32)], point: &mut [i32]) -> Option<usize>
    requires places { length point.old ≡ length ranges.now }
    ensures { MatchOption result (following ranges.now point.old ≡ None)
        (IsRaised ranges.now point.old point.new) }
{
    let mut symbol = ranges.len();
    while symbol > 0 {
        symbol -= 1;
        let (low, high) = ranges[symbol];
        if point[symbol] < high {
            point[symbol] += 1;
            return Some(symbol);
        }
        point[symbol] = low;
    }
    None
}

/// Brings the values of forms to a point: they are carried on from the point before it, with these
/// steps, or evaluated where none are kept.
pub fn bring(row: &mut FormValues, forms: &[Form], steps: &FormValues, point: &Point)
    requires many { length forms.now ≤ 120 }
    requires places { length steps.now.items ≡ length forms.now }
    requires small { AllSmallForms forms.now }
    requires near { AllNear point.now.items }
    requires few { length point.now.items ≤ 8 }
    requires after { IsAfter steps.now.items forms.now point.now.items row.old.items }
    ensures { row.new.items ≡ values point.now.items forms.now }
{
    if !row.is_empty() {
        carry(row.as_mut_slice(), steps.as_slice());
        return;
    }
    for form in forms {
        row.push(form.value_at(point.as_slice()));
    }
}

/// Carries the values of forms on, one step each.
fn carry(row: &mut [i64], steps: &[i64])
    requires places { length row.old ≡ length steps.now }
    requires bounded { AllBounded (sums row.old steps.now) }
    ensures { row.new ≡ sums row.old steps.now }
{
    for place in 0..steps.len() {
        row[place] += steps[place];
    }
}

/// At most eight forms; none of them may be negative.
#[derive(Clone, Debug, Drop)]
pub struct Guards {
    forms: ArrayVec<Form, MOST_BOX_GUARDS>,
}

impl Model for Guards {
    ghost use Rattle.std.specs.Prelude.{List};
    ghost use Rattle.burr_forms.specs.Rules.Forms.{Form, AllSmallForms};

    ghost Value = { List Form };

    ghost view = { λ g. g.forms.items };

    ghost invariant = { λ g. AllSmallForms g.forms.items };
}

impl Guards {
    /// These guards. None where there are more than eight, or a number of one lies outside ±2^40.
    pub fn new(forms: &[Form]) -> Option<Guards>
        ensures { MatchOption result (¬ AreGuards forms.now) (λ given.
            AreGuards forms.now × (given ≡ forms.now)) }
    {
        if !forms.iter().all(|form| is_small(form)) {
            return None;
        }
        let forms = ArrayVec::try_from(forms).ok()?;
        Some(Guards { forms })
    }

    /// Whether no guard is negative at a point. The caller's condition: each number of the point
    /// lies within ±32,767.
    pub fn hold(&self, point: &[i32; MOST_SYMBOLS]) -> bool
        requires { AllNear point.now }
        ensures { result ≡ guards_hold self.now point.now }
    {
        self.forms.iter().all(|guard| guard.eval(point) >= 0)
    }
}

/// Ranges of at most eight symbols, both ends in them; a symbol that isn't there has 0 alone.
#[derive(Clone, Copy, Debug, PartialEq, Eq)]
pub struct Box8 {
    ranges: [(i32, i32); MOST_SYMBOLS],
}

impl Model for Box8 {
    ghost use Rattle.std.specs.Prelude.{List, ℤ};
    ghost use Rattle.burr_forms.specs.Rules.Points.{AreRanges};

    ghost Value = { List (ℤ × ℤ) };

    ghost view = { λ b. b.ranges };

    ghost inverse = { λ ranges. record { ranges = ranges } };

    ghost invariant = { λ b. AreRanges b.ranges };
}

impl Box8 {
    /// The box of these ranges, each from its lowest number to its highest. None where there are
    /// more than eight, one holds no number, or one ends outside ±32,767.
    pub fn new(ranges: &[(i32, i32)]) -> Option<Box8>
        ensures { MatchOption result (¬ IsBox ranges.now) (λ given.
            IsBox ranges.now × (given ≡ padded ranges.now)) }
    {
        if MOST_SYMBOLS < ranges.len() {
            return None;
        }
        let mut eight = [(0, 0); MOST_SYMBOLS];
        for symbol in 0..ranges.len() {
            if !is_range(ranges[symbol]) {
                return None;
            }
            eight[symbol] = ranges[symbol];
        }
        Some(Box8 { ranges: eight })
    }

    /// The eight ranges.
    pub fn ranges(&self) -> &[(i32, i32); MOST_SYMBOLS]
        ensures ranges { result.now ≡ self.now }
        ensures are { AreRanges result.now }
    {
        &self.ranges
    }
}

/// Whether a range holds a number, and numbers within ±32,767 alone.
fn is_range(range: (i32, i32)) -> bool
    ensures { IsTrue result ↔ IsRange range }
{
    let most = i32::from(MOST_SYMBOL_VALUE);
    range.0 <= range.1 && -most <= range.0 && range.1 <= most
}
