ghost use Rattle.std.specs.Prelude.{◌≡◌, ◌↔◌, ◌≤◌, ◌+◌, ◌^◌, ℕ, IsTrue, List, ℤ, length, MatchBool, ◌<◌, MatchOption};
ghost use Rattle.burr_forms.specs.Rules.Forms.{Form as FormOf, AllNear, AllSmallForms, values};
ghost use Rattle.burr_forms.specs.Rules.Conditions.{NoneNegative, at_values, region, Throughout, FailsFirstAt};
ghost use Rattle.burr_forms.specs.Views.Counting.{LooksUnder, looks_at_values};
ghost use Rattle.burr_forms.specs.Views.Searching.{AllBounded, IsAfter, IsHere, AllLack, AreNarrowRanges, IsNarrowRange};
ghost use Rattle.burr_forms.specs.Rules.Points.{AreRanges};

use crate::form::Form;
use crate::limits::MOST_SYMBOLS;
use crate::points::{FormValues, Point, bring};
use crate::searching::first_refused;
use arrayvec::ArrayVec;

/// A condition on the values that some forms have at a point.
pub trait Condition {
    /// The forms that it asks for.
    ghost asked: { Self → List FormOf };

    /// What it says of their values.
    ghost Holds: { Self → List ℤ → Type 0 };

    /// The forms that it asks for.
    fn forms(&self) -> &[Form]
        ensures { result.now ≡ asked self.now };

    /// Whether it holds of the values of these forms, each within ±2^59.
    fn holds(&self, values: &[i64]) -> bool
        requires places { length values.now ≡ length (asked self.now) }
        requires bounded { AllBounded values.now }
        ensures { IsTrue result ↔ Holds self.now values.now };
}

/// A condition that counts what it is asked: how often it looks at something.
pub trait Asking {
    /// The part of it that asking leaves as it is.
    ghost Subject: { Type 0 };

    ghost subject: { Self → Subject };

    /// What it has counted.
    ghost count: { Self → ℕ };

    /// The forms that it asks for.
    ghost wanted: { Subject → List FormOf };

    /// What is promised of their values when it is asked.
    ghost Promised: { Subject → List ℤ → Type 0 };

    /// What it says of their values.
    ghost Says: { Subject → List ℤ → Type 0 };

    /// The most looks that it makes when it is asked once.
    ghost most: { Subject → ℕ };

    /// How often it looks, where the forms have these values.
    ghost Counts: { Subject → List ℤ → ℕ → Type 0 };

    /// What it keeps of the values where its answer is no.
    ghost Kept: { Self → Subject → List ℤ → Type 0 };

    /// The forms that it asks for.
    fn wanted_forms(&self) -> &[Form]
        ensures { result.now ≡ wanted (subject self.now) };

    /// Whether it says so of the values of these forms, each within ±2^59.
    fn ask(&mut self, values: &[i64]) -> bool
        requires places { length values.now ≡ length (wanted (subject self.old)) }
        requires bounded { AllBounded values.now }
        requires promised { Promised (subject self.old) values.now }
        requires room { count self.old + most (subject self.old) ≤ 2 ^ 61 }
        ensures same { subject self.new ≡ subject self.old }
        ensures told { IsTrue result ↔ Says (subject self.old) values.now }
        ensures kept { MatchBool result (Unit {0}) (Kept self.new (subject self.old) values.now) }
        ensures counted { (n : ℕ) × (n ≤ most (subject self.old))
            × Counts (subject self.old) values.now n
            × (count self.new ≡ count self.old + n) };
}

/// A condition that counts nothing.
#[derive(Drop)]
pub struct Plain<'a, C: Condition> {
    /// The condition.
    pub condition: &'a C,
}

impl<'a, C: Condition> Asking for Plain<'a, C> {
    ghost Subject = { C };

    ghost subject = { λ p. p.condition.now };

    ghost count = { λ _. 0 };

    ghost wanted = { C.asked };

    ghost Promised = { λ _ _. Unit {0} };

    ghost Says = { C.Holds };

    ghost most = { λ _. 0 };

    ghost Counts = { λ _ _ n. n ≡ 0 };

    ghost Kept = { λ _ _ _. Unit {0} };

    fn wanted_forms(&self) -> &[Form] {
        self.condition.forms()
    }

    fn ask(&mut self, values: &[i64]) -> bool {
        self.condition.holds(values)
    }
}

/// Whether the condition holds at a point, if no guard's value is negative there. Where one is, the
/// values of the condition's forms are not looked at, and none are kept in `row`. Where the guards
/// hold on a line of points, which differ in their last number alone, they hold without a gap, so
/// that a line is evaluated once at most.
pub fn passes<C: Asking>(
    condition: &mut C,
    signs: &FormValues,
    steps: &FormValues,
    point: &Point,
    row: &mut FormValues,
) -> bool
    requires many { length (C.wanted (C.subject condition.old)) ≤ 120 }
    requires places { length steps.now.items ≡ length (C.wanted (C.subject condition.old)) }
    requires small { AllSmallForms (C.wanted (C.subject condition.old)) }
    requires near { AllNear point.now.items }
    requires few { length point.now.items ≤ 8 }
    requires promised { NoneNegative signs.now.items
        → at_values (C.Promised (C.subject condition.old)) (C.wanted (C.subject condition.old))
        point.now.items }
    requires room { C.count condition.old + C.most (C.subject condition.old) ≤ 2 ^ 61 }
    requires after { IsAfter steps.now.items (C.wanted (C.subject condition.old)) point.now.items
        row.old.items }
    ensures same { C.subject condition.new ≡ C.subject condition.old }
    ensures told { MatchBool result
        (NoneNegative signs.now.items
        → at_values (C.Says (C.subject condition.old)) (C.wanted (C.subject condition.old))
        point.now.items)
        (NoneNegative signs.now.items
        × (¬ at_values (C.Says (C.subject condition.old)) (C.wanted (C.subject condition.old))
        point.now.items)) }
    ensures kept { MatchBool result (Unit {0}) (C.Kept condition.new (C.subject condition.old)
        (values point.now.items (C.wanted (C.subject condition.old)))) }
    ensures here { IsHere (C.wanted (C.subject condition.old)) point.now.items
        row.new.items }
    ensures counted { (n : ℕ) × (n ≤ C.most (C.subject condition.old))
        × LooksUnder signs.now.items
        (looks_at_values (C.Counts (C.subject condition.old)) (C.wanted (C.subject condition.old))
        point.now.items) n
        × (C.count condition.new ≡ C.count condition.old + n) }
{
    if !none_negative(signs.as_slice()) {
        row.clear();
        return true;
    }
    bring(row, condition.wanted_forms(), steps, point);
    condition.ask(row.as_slice())
}

/// Whether no number is negative.
fn none_negative(numbers: &[i64]) -> bool
    ensures { IsTrue result ↔ NoneNegative numbers.now }
{
    numbers.iter().all(|number| *number >= 0)
}

/// The condition that the value of no form is negative, as of a cost.
#[derive(Drop)]
pub struct NotNegative<'a> {
    /// The forms.
    pub forms: &'a [Form],
}

impl<'a> Condition for NotNegative<'a> {
    ghost asked = { λ c. c.forms.now };

    ghost Holds = { λ _ values. NoneNegative values };

    fn forms(&self) -> &[Form] {
        self.forms
    }

    fn holds(&self, values: &[i64]) -> bool {
        none_negative(values)
    }
}

// Boxes without the symbols that do not matter.

/// The first point of a box, rising, at which no guard is negative and the condition fails; None
/// where it holds at each. There are at most eight ranges and 120 guards and forms; each range
/// holds a number, and numbers within ±32,767 alone; the numbers of all forms lie within ±2^40: all
/// is the caller's condition. The value of a symbol that no guard and no form has does not matter,
/// so only its lowest value is looked at.
pub fn first_failing<C: Condition>(
    ranges: &[(i32, i32)],
    guards: &[Form],
    condition: &C,
) -> Option<Point>
    requires few { length ranges.now ≤ 8 }
    requires few_guards { length guards.now ≤ 120 }
    requires few_forms { length (C.asked condition.now) ≤ 120 }
    requires ranges { AreRanges ranges.now }
    requires guards { AllSmallForms guards.now }
    requires forms { AllSmallForms (C.asked condition.now) }
    ensures { MatchOption result
        (Throughout (region ranges.now guards.now)
        (at_values (C.Holds condition.now) (C.asked condition.now)))
        (λ point. FailsFirstAt (region ranges.now guards.now)
        (at_values (C.Holds condition.now) (C.asked condition.now)) point.items) }
{
    let narrowed = narrowed(ranges, guards, condition.forms());
    first_refused(narrowed.as_slice(), guards, &mut Plain { condition })
}

/// The ranges; of one whose symbol no guard and no form has, the lowest number alone.
fn narrowed(
    ranges: &[(i32, i32)],
    guards: &[Form],
    forms: &[Form],
) -> ArrayVec<(i32, i32), MOST_SYMBOLS>
    requires few { length ranges.now ≤ 8 }
    ensures { AreNarrowRanges (λ k. AllLack k guards.now × AllLack k forms.now)
        ranges.now result.items }
{
    let mut narrowed = ArrayVec::new();
    for symbol in 0..ranges.len() {
        narrowed.push(narrowed_range(ranges[symbol], guards, forms, symbol));
    }
    narrowed
}

/// The range of a symbol; where no guard and no form has it, its lowest number alone.
fn narrowed_range(range: (i32, i32), guards: &[Form], forms: &[Form], symbol: usize) -> (i32, i32)
    requires { symbol < 8 }
    ensures { IsNarrowRange (AllLack symbol guards.now × AllLack symbol forms.now) range result }
{
    if all_lack(guards, symbol) && all_lack(forms, symbol) {
        return (range.0, range.0);
    }
    range
}

/// Whether no form has a symbol: its coefficient is 0 in each.
fn all_lack(forms: &[Form], symbol: usize) -> bool
    requires { symbol < 8 }
    ensures { IsTrue result ↔ AllLack symbol forms.now }
{
    forms.iter().all(|form| form.coefs[symbol] == 0)
}
