ghost use Rattle.std.specs.Prelude.{◌≡◌, ◌≤◌, ◌∷◌, [], MatchResult, ◌↔◌, IsTrue, length, All};
ghost use Rattle.std.specs.List.{AllZip};
ghost use Rattle.std.specs.Int.RustNames.{unsigned_abs};
ghost use Rattle.burr_code.specs.Places.{at_position};
ghost use Rattle.burr_forms.specs.Rules.Forms.{number as form_of_number, raised, one_less, IsSmallForm, AllSmallForms, value};
ghost use Rattle.burr_forms.specs.Rules.Conditions.{region};
ghost use Rattle.burr_forms.specs.Views.Results.{IsFormOf};
ghost use Rattle.burr_forms.specs.Rules.Points.{AreRanges};
ghost use Rattle.burr_forms.specs.Views.Searching.{AllBounded};
ghost use Rattle.burr_container.specs.Views.Refs.{placement_view};
ghost use Rattle.burr_frames.specs.Rules.ControlRules.{substituted_cell};
ghost use Rattle.burr_frames.specs.Rules.SpaceRules.{moved_forms, AllSmallPlaces};
ghost use Rattle.burr_frames.specs.Views.Ranges.{IsInReach, AllInReach, LiesWithin};
ghost use Rattle.burr_frames.specs.Views.Shown.{IsNowhereNegative, IsAboveBy, ShowsNotNegative, ShowsAbove, ShowsWithin, ShowsGuards, ShowsNoneBelow};

use burr_code::Placement;
use burr_code::limits::SLOTS;
use burr_container::FormOffset;
use burr_forms::limits::MOST_FORM_NUMBER;
use burr_forms::{Condition, Form, FormTooLarge};
use burr_voxels::Direction;

// Where pieces are by forms: how a place is told, and places that are shifted or get other symbols.

/// Where a piece is by its tray and its offset; apart where none are given.
pub fn placed(place: Option<(u8, Form, Form, Form)>) -> Placement<FormOffset>
    ensures { result ≡ placement_view place }
{
    match place {
        None => Placement::Apart,
        Some((tray, x, y, z)) => Placement::On {
            tray,
            position: FormOffset { x, y, z },
        },
    }
}

/// Whether the numbers of a place's forms lie within ±2^40 one unit along a direction, as they do
/// where it is, the caller's condition.
pub fn can_shift(place: &Placement<FormOffset>, direction: Direction) -> bool
    requires { AllSmallPlaces (place.now ∷ []) }
    ensures { IsTrue result ↔ AllSmallPlaces (at_position (moved_forms direction) place.now ∷ []) }
{
    let Placement::On { position, .. } = place else {
        return true;
    };
    let unit = direction.unit();
    can_raise(&position.x, unit.x)
        && can_raise(&position.y, unit.y)
        && can_raise(&position.z, unit.z)
}

/// Shifts a place one unit along a direction; a piece that is apart stays so. The forms' numbers lie
/// within ±2^40 then, the caller's condition.
pub fn shift(place: &mut Placement<FormOffset>, direction: Direction)
    requires { AllSmallPlaces (at_position (moved_forms direction) place.old ∷ []) }
    ensures { place.new ≡ at_position (moved_forms direction) place.old }
{
    if let Placement::On { position, .. } = place {
        let unit = direction.unit();
        raise(&mut position.x, unit.x);
        raise(&mut position.y, unit.y);
        raise(&mut position.z, unit.z);
    }
}

/// The same place with a form in place of each symbol. The numbers of all forms lie within
/// ±2^40, the caller's condition.
pub fn substituted(
    place: &Placement<FormOffset>,
    forms: &[Form; SLOTS],
) -> Result<Placement<FormOffset>, FormTooLarge>
    requires small { AllSmallPlaces (place.now ∷ []) }
    requires forms_small { AllSmallForms forms.now }
    ensures { MatchResult result
        (λ new. (new ≡ at_position (substituted_cell forms.now) place.now)
        × AllSmallPlaces (new ∷ []))
        (λ _. ¬ AllSmallPlaces (at_position (substituted_cell forms.now) place.now ∷ [])) }
{
    let Placement::On { tray, position } = *place else {
        return Ok(Placement::Apart);
    };
    let position = FormOffset {
        x: position.x.substitute(forms)?,
        y: position.y.substitute(forms)?,
        z: position.z.substitute(forms)?,
    };
    Ok(Placement::On { tray, position })
}

/// The condition that no value of some forms is farther than this from 0.
#[derive(Drop)]
pub struct Within<'a> {
    pub forms: &'a [Form],
    /// 32,767 at most.
    pub reach: u16,
}

impl<'a> Condition for Within<'a> {
    ghost asked = { λ c. c.forms.now };

    ghost Holds = { λ c values. AllInReach c.reach values };

    fn forms(&self) -> &[Form] {
        self.forms
    }

    fn holds(&self, values: &[i64]) -> bool {
        let reach = self.reach;
        values.iter().all(|value| is_in_reach(*value, reach))
    }
}

/// Whether no value of some forms is farther than this from 0 at a point of a box, guards not
/// counted. The caller's conditions are those of `Form::least_in`.
pub fn lie_within(ranges: &[(i32, i32)], forms: &[Form], reach: u16) -> bool
    requires few { length ranges.now ≤ 8 }
    requires ranges { AreRanges ranges.now }
    requires small { AllSmallForms forms.now }
    ensures { IsTrue result ↔ All (LiesWithin ranges.now reach) forms.now }
{
    forms.iter().all(|form| lies_within(ranges, form, reach))
}

/// The same of one form.
fn lies_within(ranges: &[(i32, i32)], form: &Form, reach: u16) -> bool
    requires few { length ranges.now ≤ 8 }
    requires ranges { AreRanges ranges.now }
    requires small { IsSmallForm form.now }
    ensures { IsTrue result ↔ LiesWithin ranges.now reach form.now }
{
    is_in_reach(form.least_in(ranges), reach) && is_in_reach(form.greatest_in(ranges), reach)
}

/// Whether a number is not farther than this from 0.
fn is_in_reach(number: i64, reach: u16) -> bool
    ensures { IsTrue result ↔ IsInReach reach number }
{
    let reach = i64::from(reach);
    -reach <= number && number <= reach
}

/// The form of a number.
pub fn number_form(number: i32) -> Form
    ensures form { result ≡ form_of_number number }
    ensures small { IsSmallForm result }
{
    Form {
        constant: i64::from(number),
        coefs: [0; SLOTS],
    }
}

/// The value of a form where the first symbols, eight at most, have these values, each within
/// ±2^59, and the others count nothing. The form's own numbers lie within ±2^40; all is the
/// caller's condition.
pub fn wide_value(form: &Form, symbols: &[i64]) -> i128
    requires small { IsSmallForm form.now }
    requires bounded { AllBounded symbols.now }
    requires few { length symbols.now ≤ 8 }
    ensures { result ≡ value symbols.now form.now }
{
    let mut sum = i128::from(form.constant);
    for symbol in 0..symbols.len() {
        sum += i128::from(form.coefs[symbol]) * i128::from(symbols[symbol]);
    }
    sum
}

/// Whether a form's numbers lie within ±2^40 where its constant is so much higher, one at most,
/// either way.
fn can_raise(form: &Form, number: i32) -> bool
    requires small { IsSmallForm form.now }
    requires one { unsigned_abs number ≤ 1 }
    ensures { IsTrue result ↔ IsSmallForm (raised number form.now) }
{
    let constant = form.constant + i64::from(number);
    -MOST_FORM_NUMBER <= constant && constant <= MOST_FORM_NUMBER
}

/// Raises a form's constant by so much. Its numbers lie within ±2^40 then, the caller's condition.
fn raise(form: &mut Form, number: i32)
    requires { IsSmallForm (raised number form.old) }
    ensures { form.new ≡ raised number form.old }
{
    form.constant += i64::from(number);
}

/// A form whose constant is one lower.
pub fn one_less(form: &Form) -> Result<Form, FormTooLarge>
    requires small { IsSmallForm form.now }
    ensures { IsFormOf result (one_less form.now) }
{
    if form.constant == -MOST_FORM_NUMBER {
        return Err(FormTooLarge);
    }
    Ok(Form {
        constant: form.constant - 1,
        coefs: form.coefs,
    })
}

// What forms show of all points at once.

/// The points of a box at which no guard is negative.
#[derive(Drop)]
pub struct Region<'a> {
    pub ranges: &'a [(i32, i32)],
    pub guards: &'a [Form],
    ghost few: { length ranges.now ≤ 8 },
    ghost are: { AreRanges ranges.now },
    ghost guards_small: { AllSmallForms guards.now },
}

impl Region<'_> {
    /// Whether a form is shown to be negative at no point: its least value in the whole box is not
    /// negative, or it is nowhere in the box below a guard.
    pub fn shows_not_negative(&self, form: &Form) -> bool
        requires { IsSmallForm form.now }
        ensures { IsTrue result
            ↔ ShowsNotNegative (region self.now.ranges.now self.now.guards.now) form.now }
    {
        if form.least_in(self.ranges) >= 0 {
            return true;
        }
        for guard in self.guards {
            if is_above(self.ranges, form, guard) {
                return true;
            }
        }
        false
    }

    /// Whether a form is shown to be below another one at no point; false also where their
    /// difference is too large for a form.
    fn shows_above(&self, form: &Form, other: &Form) -> bool
        requires small { IsSmallForm form.now }
        requires other_small { IsSmallForm other.now }
        ensures { IsTrue result
            ↔ ShowsAbove (region self.now.ranges.now self.now.guards.now) form.now other.now }
    {
        match form.sub(other) {
            Ok(gap) => self.shows_not_negative(&gap),
            Err(_) => false,
        }
    }

    /// Whether a form is shown to stay within a range.
    fn shows_within(&self, form: &Form, range: (i32, i32)) -> bool
        requires { IsSmallForm form.now }
        ensures { IsTrue result
            ↔ ShowsWithin (region self.now.ranges.now self.now.guards.now) form.now range }
    {
        let (low, high) = range;
        self.shows_above(form, &number_form(low)) && self.shows_above(&number_form(high), form)
    }

    /// Whether each of some forms is shown to stay within its range.
    pub fn keeps_within(&self, forms: &[Form], ranges: &[(i32, i32)]) -> bool
        requires places { length forms.now ≡ length ranges.now }
        requires small { AllSmallForms forms.now }
        ensures { IsTrue result
            ↔ AllZip (ShowsWithin (region self.now.ranges.now self.now.guards.now))
            forms.now ranges.now }
    {
        for place in 0..forms.len() {
            if !self.shows_within(&forms[place], ranges[place]) {
                return false;
            }
        }
        true
    }

    /// Whether guards, with arguments in place of their symbols, are shown to be negative at no
    /// point; false also where one is too large for a form then.
    pub fn keeps_guards(&self, guards: &[Form], arguments: &[Form; SLOTS]) -> bool
        requires small { AllSmallForms guards.now }
        requires arguments_small { AllSmallForms arguments.now }
        ensures { IsTrue result
            ↔ ShowsGuards (region self.now.ranges.now self.now.guards.now)
            arguments.now guards.now }
    {
        for guard in guards {
            let Ok(form) = guard.substitute(arguments) else {
                return false;
            };
            if !self.shows_not_negative(&form) {
                return false;
            }
        }
        true
    }

    /// Whether forms are shown to be below others, with arguments in place of the symbols of these,
    /// at no point, one by one; false also where one of the others or a difference is too large for
    /// a form.
    pub fn keeps_above(&self, forms: &[Form], least: &[Form], arguments: &[Form; SLOTS]) -> bool
        requires places { length forms.now ≡ length least.now }
        requires small { AllSmallForms forms.now }
        requires least_small { AllSmallForms least.now }
        requires arguments_small { AllSmallForms arguments.now }
        ensures { IsTrue result
            ↔ ShowsNoneBelow (region self.now.ranges.now self.now.guards.now)
            arguments.now least.now forms.now }
    {
        for place in 0..forms.len() {
            let Ok(other) = least[place].substitute(arguments) else {
                return false;
            };
            if !self.shows_above(&forms[place], &other) {
                return false;
            }
        }
        true
    }
}

/// Whether a form is nowhere in a box below another one, guards not counted; false also where their
/// difference is too large for a form.
fn is_above(ranges: &[(i32, i32)], form: &Form, other: &Form) -> bool
    requires few { length ranges.now ≤ 8 }
    requires ranges { AreRanges ranges.now }
    requires small { IsSmallForm form.now }
    requires other_small { IsSmallForm other.now }
    ensures { IsTrue result ↔ IsAboveBy (IsNowhereNegative ranges.now) form.now other.now }
{
    match form.sub(other) {
        Ok(gap) => gap.least_in(ranges) >= 0,
        Err(_) => false,
    }
}
