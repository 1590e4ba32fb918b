//! Linear forms: their values and sums, the points of boxes, and searches among these.

ghost use Rattle.std.specs.Prelude.{IsTrue, ◌↔◌};
ghost use Rattle.burr_forms.specs.Rules.Forms.{IsSmallForm, IsNear};

use burr_forms::{Box8, Form, FormTooLarge, Guards, NotNegative, Point, Points, first_failing};
use std::process::Abort;

/// The most that a number of a form may be.
const MOST: i64 = 1 << 40;

/// The form of a number.
const fn number(constant: i64) -> Form {
    Form {
        constant,
        coefs: [0; 8],
    }
}

/// The form with this constant and these coefficients of the first two symbols.
const fn form(constant: i64, first: i64, second: i64) -> Form {
    Form {
        constant,
        coefs: [first, second, 0, 0, 0, 0, 0, 0],
    }
}

/// Whether all numbers of a form are within ±2^40, as they have to be.
fn is_small(form: &Form) -> bool
    ensures { IsTrue result → IsSmallForm form.now }
{
    match Guards::new(&[*form]) {
        Some(_guards) => true,
        None => false,
    }
}

// The least and the greatest value of a form in a box.

/// Asserts the least and the greatest value of a form at the points of a box.
fn assert_ends(rt: &impl Abort, form: Form, ranges: &[(i32, i32)], least: i64, greatest: i64) {
    assert!(rt; Box8::new(ranges).is_some());
    assert!(rt; is_small(&form));
    assert!(rt; form.least_in(ranges) == least);
    assert!(rt; form.greatest_in(ranges) == greatest);
}

#[test]
fn gives_least_and_greatest_values(rt: HostRuntime) {
    let ranges = [(-2, 3), (1, 4)];
    assert_ends(&rt, form(5, 10, -3), &ranges, -27, 32);
    // A symbol without a range counts nothing.
    assert_ends(&rt, form(5, -10, -3), &ranges[..1], -25, 25);
    let most = Form {
        constant: MOST,
        coefs: [MOST; 8],
    };
    let greatest = MOST * (1 + 8 * 32767);
    assert_ends(&rt, most, &[(0, 32767); 8], MOST, greatest);
}

// Points of boxes under guards.

/// Asserts the points of a box under guards; a pair is the first two numbers of a point.
fn assert_points(rt: &impl Abort, ranges: &[(i32, i32)], guards: &[Form], pairs: &[(i32, i32)]) {
    let ranges = Box8::new(ranges).expect(rt, "ranges");
    let guards = Guards::new(guards).expect(rt, "guards");
    let mut left = pairs;
    for point in Points::new(&ranges, &guards) {
        let (pair, rest) = left.split_first().expect(rt, "a point more");
        assert!(rt; point == [pair.0, pair.1, 0, 0, 0, 0, 0, 0]);
        left = rest;
    }
    assert!(rt; left.is_empty());
}

/// The two labels of the plan that asks how far a dot is lifted: what was asked is the first number,
/// and what is left of it the second one, at the second label before a unit of it is lifted.
#[test]
fn points_of_the_worked_frames(rt: HostRuntime) {
    let first = [(0, 0), (1, 0), (1, 1), (2, 0), (2, 1), (2, 2)];
    assert_points(&rt, &[(0, 2), (0, 2)], &[form(0, 1, -1)], &first);
    let second = [(1, 0), (2, 0), (2, 1)];
    assert_points(&rt, &[(0, 2), (0, 1)], &[form(-1, 1, -1)], &second);
}

#[test]
fn without_symbols_there_is_one_point_or_none(rt: HostRuntime) {
    assert_points(&rt, &[], &[], &[(0, 0)]);
    assert_points(&rt, &[], &[number(0)], &[(0, 0)]);
    assert_points(&rt, &[], &[number(-1)], &[]);
}

/// Whether ranges are taken for a box.
fn is_box(ranges: &[(i32, i32)]) -> bool {
    Box8::new(ranges).is_some()
}

#[test]
fn takes_ranges_and_guards_within_bounds(rt: HostRuntime) {
    assert!(rt; is_box(&[(-32767, 32767); 8]));
    assert!(rt; !is_box(&[(0, 0); 9]));
    assert!(rt; !is_box(&[(0, 1), (1, 0)]));
    assert!(rt; !is_box(&[(0, 32768)]));
    assert!(rt; !is_box(&[(-32768, 0)]));
    assert!(rt; Guards::new(&[form(-MOST, MOST, -MOST); 8]).is_some());
    assert!(rt; Guards::new(&[number(0); 9]).is_none());
    assert!(rt; !is_small(&number(MOST + 1)));
    assert!(rt; !is_small(&form(0, 0, -MOST - 1)));
}

// Searches for the first point at which a form is negative.

/// Asserts the first point at which no guard is negative and the form is.
fn assert_found(
    rt: &impl Abort,
    ranges: &[(i32, i32)],
    guards: &[Form],
    form: Form,
    found: Option<&[i32]>,
) {
    assert!(rt; Box8::new(ranges).is_some());
    assert!(rt; Guards::new(guards).is_some());
    let forms = [form];
    assert!(rt; Guards::new(&forms).is_some());
    let point = first_failing(ranges, guards, &NotNegative { forms: &forms });
    assert!(rt; is_point(&point, found));
}

/// Whether a point has these numbers; without numbers, whether there is no point.
fn is_point(point: &Option<Point>, numbers: Option<&[i32]>) -> bool {
    match (point, numbers) {
        (Some(point), Some(numbers)) => point.as_slice() == numbers,
        (None, None) => true,
        _ => false,
    }
}

#[test]
fn finds_the_first_point(rt: HostRuntime) {
    let ranges = [(0, 2), (0, 2)];
    // A guard keeps the second number from being above the first.
    let guards = [form(0, 1, -1)];
    assert_found(&rt, &ranges, &[], form(1, -1, -1), Some(&[0, 2]));
    assert_found(&rt, &ranges, &guards, form(1, -1, -1), Some(&[1, 1]));
    assert_found(&rt, &ranges, &guards, form(0, 1, -1), None);
    // Without symbols there is one point, and none where a guard is negative.
    assert_found(&rt, &[], &[], number(-1), Some(&[]));
    assert_found(&rt, &[], &[number(-1)], number(-1), None);
}

// Values, sums and substitution.

/// Asserts the value of a form at a point.
fn assert_value(rt: &impl Abort, form: Form, point: [i32; 8], value: i64) {
    assert!(rt; is_small(&form));
    assert!(rt; point.iter().all(|number| is_near(*number)));
    assert!(rt; form.eval(&point) == value);
}

/// Whether a number of a point is within ±32,767, as it has to be.
fn is_near(number: i32) -> bool
    ensures { IsTrue result ↔ IsNear number }
{
    -32767 <= number && number <= 32767
}

#[test]
fn gives_values(rt: HostRuntime) {
    assert_value(&rt, form(1, 2, -3), [4, 5, 9, 9, 9, 9, 9, 9], -6);
    let most = Form {
        constant: MOST,
        coefs: [MOST; 8],
    };
    assert_value(&rt, most, [-32767; 8], MOST * (1 - 8 * 32767));
}

/// Asserts what a form is with these arguments in place of its symbols.
fn assert_substituted(
    rt: &impl Abort,
    form: Form,
    arguments: &[Form; 8],
    given: Result<Form, FormTooLarge>,
) {
    assert!(rt; is_small(&form));
    assert!(rt; Guards::new(arguments).is_some());
    assert!(rt; form.substitute(arguments) == given);
}

/// Two arguments, and 0 in place of the other symbols.
fn arguments(first: Form, second: Form) -> [Form; 8] {
    let zero = number(0);
    [first, second, zero, zero, zero, zero, zero, zero]
}

/// Where the first symbol is 3 less the second one, 1 and twice the first is 7 less twice the second.
#[test]
fn puts_forms_in_place_of_symbols(rt: HostRuntime) {
    let one = arguments(form(3, 0, -1), number(0));
    assert_substituted(&rt, form(1, 2, 0), &one, Ok(form(7, 0, -2)));
    let other = arguments(number(0), form(1, 1, 0));
    assert_substituted(&rt, form(5, 0, 3), &other, Ok(form(8, 3, 0)));
}

#[test]
fn a_coefficient_of_2_to_the_40_is_the_largest(rt: HostRuntime) {
    let once = arguments(number(1), form(0, -1, 0));
    let twice = arguments(number(2), form(0, -2, 0));
    let (first, second) = (form(0, MOST, 0), form(0, 0, MOST));
    assert_substituted(&rt, first, &once, Ok(number(MOST)));
    assert_substituted(&rt, first, &twice, Err(FormTooLarge));
    assert_substituted(&rt, second, &once, Ok(form(0, -MOST, 0)));
    assert_substituted(&rt, second, &twice, Err(FormTooLarge));
    // What lies between may be far larger.
    let far = arguments(number(MOST), number(-MOST));
    assert_substituted(&rt, form(1, MOST, MOST), &far, Ok(number(1)));
    assert_substituted(&rt, form(0, 2, 0), &far, Err(FormTooLarge));
}

/// Asserts the sum and the difference of two forms.
fn assert_added(
    rt: &impl Abort,
    one: Form,
    other: Form,
    sum: Result<Form, FormTooLarge>,
    difference: Result<Form, FormTooLarge>,
) {
    assert!(rt; is_small(&one));
    assert!(rt; is_small(&other));
    assert!(rt; one.add(&other) == sum);
    assert!(rt; one.sub(&other) == difference);
}

#[test]
fn adds_and_subtracts(rt: HostRuntime) {
    let (one, other) = (form(1, 2, 3), form(10, -2, 30));
    assert_added(&rt, one, other, Ok(form(11, 0, 33)), Ok(form(-9, 4, -27)));
    let (most, least) = (number(MOST), number(-MOST));
    assert_added(&rt, most, least, Ok(number(0)), Err(FormTooLarge));
    let (less, more) = (number(MOST - 1), number(1 - MOST));
    assert_added(&rt, most, number(1), Err(FormTooLarge), Ok(less));
    assert_added(&rt, least, number(1), Ok(more), Err(FormTooLarge));
}
