ghost use Rattle.std.specs.Prelude.{◌≡◌, ◌≤◌, ◌↔◌, IsTrue, length, ◌*ℤ◌, ◌^◌, map, MatchResult};
ghost use Rattle.burr_forms.specs.Rules.Forms.{value, plus_form, minus_form, substituted, IsSmall, IsSmallForm, AllSmallForms, AllNear, sum_of, times, number, AllSmall};
ghost use Rattle.burr_forms.specs.Views.Results.{IsFormOf};
ghost use Rattle.burr_forms.specs.Rules.Points.{AreRanges};
ghost use Rattle.burr_forms.specs.Views.Bounds.{IsLeastIn, IsGreatestIn, end_at, corner};
ghost use Rattle.burr_forms.specs.Views.Wides.{AllWithin, IsWideForm};

use crate::limits::{MOST_FORM_NUMBER, MOST_SYMBOLS};
use crate::points::Point;
use arrayvec::ArrayVec;
use std::marker::Model;
use thiserror::Error;

/// A linear form over at most eight symbols. Its value is the constant plus each coefficient times
/// the value of its symbol; the coefficient of a symbol that isn't there is 0.
#[derive(Clone, Copy, Debug, Default, PartialEq, Eq)]
pub struct Form {
    pub constant: i64,
    pub coefs: [i64; MOST_SYMBOLS],
}

impl Model for Form {
    ghost use Rattle.burr_forms.specs.Rules.Forms.{Form};

    ghost Value = { Form };

    ghost view = { λ f. record { constant = f.constant; coefs = f.coefs } };

    ghost inverse = { λ f. record { constant = f.constant; coefs = f.coefs } };
}

/// A number of a form would lie outside ±2^40.
#[derive(Clone, Copy, Debug, PartialEq, Eq, Error)]
#[error("a number of the form lies below -2^40 or above 2^40")]
pub struct FormTooLarge;

impl Form {
    /// Its value where the symbols have these values, each within ±32,767. Its own numbers lie
    /// within ±2^40; both are the caller's condition.
    pub fn eval(&self, point: &[i32; MOST_SYMBOLS]) -> i64
        requires small { IsSmallForm self.now }
        requires near { AllNear point.now }
        ensures { result ≡ value point.now self.now }
    {
        self.value_at(point)
    }

    /// Its value where the first symbols, eight at most, have these values, each within ±32,767,
    /// and the others count nothing. Its own numbers lie within ±2^40; all is the caller's
    /// condition.
    pub fn value_at(&self, point: &[i32]) -> i64
        requires small { IsSmallForm self.now }
        requires near { AllNear point.now }
        requires few { length point.now ≤ 8 }
        ensures { result ≡ value point.now self.now }
    {
        let mut sum = self.constant;
        for symbol in 0..point.len() {
            sum += self.coefs[symbol] * i64::from(point[symbol]);
        }
        sum
    }

    /// The sum with another form. The numbers of both lie within ±2^40, the caller's condition.
    pub fn add(&self, other: &Form) -> Result<Form, FormTooLarge>
        requires small { IsSmallForm self.now }
        requires other_small { IsSmallForm other.now }
        ensures { IsFormOf result (plus_form self.now other.now) }
    {
        let mut sum = Wide::of(self);
        sum.add_times(1, other);
        sum.form()
    }

    /// This form less another one. The numbers of both lie within ±2^40, the caller's condition.
    pub fn sub(&self, other: &Form) -> Result<Form, FormTooLarge>
        requires small { IsSmallForm self.now }
        requires other_small { IsSmallForm other.now }
        ensures { IsFormOf result (minus_form self.now other.now) }
    {
        let mut sum = Wide::of(self);
        sum.add_times(-1, other);
        sum.form()
    }

    /// The form with an argument in place of each symbol. The numbers of all lie within ±2^40, the
    /// caller's condition; sums on the way may be larger.
    pub fn substitute(&self, arguments: &[Form; MOST_SYMBOLS]) -> Result<Form, FormTooLarge>
        requires small { IsSmallForm self.now }
        requires arguments_small { AllSmallForms arguments.now }
        ensures { IsFormOf result (substituted arguments.now self.now) }
    {
        let mut sum = Wide::of_number(self.constant);
        for symbol in 0..MOST_SYMBOLS {
            sum.add_times(self.coefs[symbol], &arguments[symbol]);
        }
        sum.form()
    }
}

/// Whether all numbers of a form lie within ±2^40.
pub fn is_small(form: &Form) -> bool
    ensures { IsTrue result ↔ IsSmallForm form.now }
{
    is_small_number(form.constant) && form.coefs.iter().all(|coef| is_small_number(*coef))
}

fn is_small_number(number: i64) -> bool
    ensures { IsTrue result ↔ IsSmall number }
{
    -MOST_FORM_NUMBER <= number && number <= MOST_FORM_NUMBER
}

// The bounds of the values that a form has at the points of a box.
impl Form {
    /// Its least value at a point of a box, guards not counted. The caller's conditions: there are
    /// at most eight ranges; each range holds a number, and only numbers within ±32,767; the form's
    /// own numbers lie within ±2^40.
    pub fn least_in(&self, ranges: &[(i32, i32)]) -> i64
        requires few { length ranges.now ≤ 8 }
        requires ranges { AreRanges ranges.now }
        requires small { IsSmallForm self.now }
        ensures { IsLeastIn ranges.now self.now result }
    {
        let point = corner(&self.coefs, ranges, false);
        self.value_at(point.as_slice())
    }

    /// Its greatest value at a point of a box, under the same conditions.
    pub fn greatest_in(&self, ranges: &[(i32, i32)]) -> i64
        requires few { length ranges.now ≤ 8 }
        requires ranges { AreRanges ranges.now }
        requires small { IsSmallForm self.now }
        ensures { IsGreatestIn ranges.now self.now result }
    {
        let point = corner(&self.coefs, ranges, true);
        self.value_at(point.as_slice())
    }
}

/// The point of a box at which the sum of the multiples of these numbers is greatest, or least.
fn corner(coefs: &[i64; MOST_SYMBOLS], ranges: &[(i32, i32)], is_greatest: bool) -> Point
    requires { length ranges.now ≤ 8 }
    ensures { result.items ≡ corner is_greatest coefs.now ranges.now }
{
    let mut point = ArrayVec::new();
    for symbol in 0..ranges.len() {
        point.push(end_at(coefs[symbol], ranges[symbol], is_greatest));
    }
    point
}

/// The end of a range at which a multiple of a number is greatest, or least.
fn end_at(coef: i64, range: (i32, i32), is_greatest: bool) -> i32
    ensures { result ≡ end_at is_greatest coef range }
{
    let (low, high) = range;
    match (is_greatest, coef < 0) {
        (true, true) | (false, false) => low,
        (true, false) | (false, true) => high,
    }
}

/// A form under way, whose numbers may be larger than a form's.
#[derive(Clone, Copy)]
pub struct Wide {
    constant: i128,
    coefs: [i128; MOST_SYMBOLS],
}

impl Model for Wide {
    ghost use Rattle.burr_forms.specs.Rules.Forms.{Form};

    ghost Value = { Form };

    ghost view = { λ f. record { constant = f.constant; coefs = f.coefs } };

    ghost inverse = { λ f. record { constant = f.constant; coefs = f.coefs } };
}

impl Wide {
    /// The form of a number.
    pub fn of_number(constant: i64) -> Wide
        ensures { result ≡ number constant }
    {
        Wide {
            constant: i128::from(constant),
            coefs: [0; MOST_SYMBOLS],
        }
    }

    /// The same form.
    pub fn of(form: &Form) -> Wide
        ensures { result ≡ form.now }
    {
        let mut wide = Wide::of_number(form.constant);
        add_multiples(&mut wide.coefs, 1, &form.coefs);
        wide
    }

    /// Adds `factor` times a form. The sum has room, the caller's condition.
    pub fn add_times(&mut self, factor: i64, form: &Form)
        requires wide { IsWideForm self.old }
        requires factor { IsSmall factor }
        ensures { self.new ≡ plus_form self.old (times factor form.now) }
    {
        self.constant += i128::from(factor) * i128::from(form.constant);
        add_multiples(&mut self.coefs, factor, &form.coefs);
    }

    /// The form, if its numbers are small.
    pub fn form(&self) -> Result<Form, FormTooLarge>
        ensures { IsFormOf result self.now }
    {
        Ok(Form {
            constant: small(self.constant)?,
            coefs: small_numbers(&self.coefs)?,
        })
    }
}

/// Adds to each number `factor` times the one at its place in `others`.
fn add_multiples(numbers: &mut [i128; MOST_SYMBOLS], factor: i64, others: &[i64; MOST_SYMBOLS])
    requires wide { AllWithin (2 ^ 100) numbers.old }
    requires factor { IsSmall factor }
    ensures { numbers.new ≡ sum_of numbers.old (map (λ c. factor *ℤ c) others.now) }
{
    let factor = i128::from(factor);
    for symbol in 0..MOST_SYMBOLS {
        numbers[symbol] += factor * i128::from(others[symbol]);
    }
}

/// The numbers, if each is small.
fn small_numbers(numbers: &[i128; MOST_SYMBOLS]) -> Result<[i64; MOST_SYMBOLS], FormTooLarge>
    ensures { MatchResult result (λ given. (given ≡ numbers.now) × AllSmall numbers.now)
        (λ _. ¬ AllSmall numbers.now) }
{
    let mut given = [0; MOST_SYMBOLS];
    for symbol in 0..MOST_SYMBOLS {
        given[symbol] = small(numbers[symbol])?;
    }
    Ok(given)
}

/// The number, if it is small.
fn small(number: i128) -> Result<i64, FormTooLarge>
    ensures { MatchResult result (λ given. (given ≡ number) × IsSmall number)
        (λ _. ¬ IsSmall number) }
{
    let most = i128::from(MOST_FORM_NUMBER);
    if number < -most || most < number {
        return Err(FormTooLarge);
    }
    Ok(number as i64)
}
