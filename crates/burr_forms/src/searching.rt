ghost use Rattle.std.specs.Prelude.{◌≡◌, ◌↔◌, ◌≤◌, ◌+◌, ◌*◌, ◌^◌, IsTrue, length, MatchOption};
ghost use Rattle.burr_forms.specs.Views.Counting.{Counted, looks_at_values};
ghost use Rattle.burr_forms.specs.Views.Rising.{count_in};
ghost use Rattle.burr_forms.specs.Rules.Forms.{AllSmallForms, IsSmallForm, values};
ghost use Rattle.burr_forms.specs.Rules.Points.{AreRanges};
ghost use Rattle.burr_forms.specs.Rules.Conditions.{region, at_values, Throughout, FailsFirstAt};
ghost use Rattle.burr_forms.specs.Views.Searching.{HoldAlike, IsNegativeIn};

use crate::condition::{Asking, passes};
use crate::form::Form;
use crate::limits::MOST_BOX_GUARDS;
use crate::points::{Point, advance, bring, lowest_point, steps_along};
use arrayvec::ArrayVec;

/// The first failing point of a box, as `first_failing` gives it, by a look at each point. Along
/// the last symbol values are carried on by addition. Where there are at most eight guards, those
/// that hold in the whole box are left out.
pub fn first_refused<C: Asking>(
    ranges: &[(i32, i32)],
    guards: &[Form],
    condition: &mut C,
) -> Option<Point>
    requires few { length ranges.now ≤ 8 }
    requires few_guards { length guards.now ≤ 120 }
    requires few_forms { length (C.wanted (C.subject condition.old)) ≤ 120 }
    requires ranges { AreRanges ranges.now }
    requires guards { AllSmallForms guards.now }
    requires forms { AllSmallForms (C.wanted (C.subject condition.old)) }
    requires promised { Throughout (region ranges.now guards.now)
        (at_values (C.Promised (C.subject condition.old)) (C.wanted (C.subject condition.old))) }
    requires room { C.count condition.old + C.most (C.subject condition.old) * count_in ranges.now
        ≤ 2 ^ 61 }
    ensures found { MatchOption result
        (Throughout (region ranges.now guards.now)
        (at_values (C.Says (C.subject condition.old)) (C.wanted (C.subject condition.old))))
        (λ point. FailsFirstAt (region ranges.now guards.now)
        (at_values (C.Says (C.subject condition.old)) (C.wanted (C.subject condition.old)))
        point.items) }
    ensures kept { MatchOption result (Unit {0}) (λ point. C.Kept condition.new
        (C.subject condition.old) (values point.items (C.wanted (C.subject condition.old)))) }
    ensures same { C.subject condition.new ≡ C.subject condition.old }
    ensures counted { Counted (region ranges.now guards.now)
        (at_values (C.Says (C.subject condition.old)) (C.wanted (C.subject condition.old)))
        (looks_at_values (C.Counts (C.subject condition.old)) (C.wanted (C.subject condition.old)))
        (C.count condition.old) (C.count condition.new) }
{
    let mut room = ArrayVec::new();
    let cutting = cutting_guards(ranges, guards, &mut room);
    let last = ranges.len().saturating_sub(1);
    let sign_steps = steps_along(cutting, last);
    let steps = steps_along(condition.wanted_forms(), last);
    let mut point = lowest_point(ranges);
    let mut signs = ArrayVec::new();
    let mut row = ArrayVec::new();
    loop {
        bring(&mut signs, cutting, &sign_steps, &point);
        if !passes(condition, &signs, &steps, &point, &mut row) {
            return Some(point);
        }
        if advance(ranges, point.as_mut_slice())? != last {
            signs.clear();
            row.clear();
        }
    }
}

/// The guards that are negative at a point of a box, copied into `room`. Where there are more than
/// eight guards, all of them stay.
fn cutting_guards<'a>(
    ranges: &[(i32, i32)],
    guards: &'a [Form],
    room: &'a mut ArrayVec<Form, MOST_BOX_GUARDS>,
) -> &'a [Form]
    requires few { length ranges.now ≤ 8 }
    requires ranges { AreRanges ranges.now }
    requires guards { AllSmallForms guards.now }
    ensures alike { HoldAlike ranges.now guards.now result.now }
    ensures small { AllSmallForms result.now }
    ensures fewer { length result.now ≤ length guards.now }
{
    if MOST_BOX_GUARDS < guards.len() {
        return guards;
    }
    room.clear();
    for guard in guards {
        if is_negative_in(ranges, guard) {
            room.push(*guard);
        }
    }
    room.as_slice()
}

/// Whether a form is negative at a point of a box, guards not counted.
fn is_negative_in(ranges: &[(i32, i32)], form: &Form) -> bool
    requires few { length ranges.now ≤ 8 }
    requires ranges { AreRanges ranges.now }
    requires small { IsSmallForm form.now }
    ensures { IsTrue result ↔ IsNegativeIn ranges.now form.now }
{
    form.least_in(ranges) < 0
}
