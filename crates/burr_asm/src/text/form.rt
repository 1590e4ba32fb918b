ghost use Rattle.std.specs.Prelude.{◌≡◌, ◌<◌, ◌≤◌, false, length, true, IfSome, IsTrue};
ghost use Rattle.std.specs.Prelude.{MatchOption};
ghost use Rattle.std.specs.List.{list_all, position, position_or_len};
ghost use Rattle.std.specs.Str.Parse.{without_leading_plus};
ghost use Rattle.burr_code.specs.declared.limits.TheConstants.{SLOTS};
ghost use Rattle.burr_plantext.specs.Rules.Written.{constant_word, form_in, is_form, is_form_over};
ghost use Rattle.burr_plantext.specs.Rules.Written.{is_number, is_sign, is_term};
ghost use Rattle.burr_plantext.specs.Rules.Checks.{is_empty};
ghost use Rattle.burr_asm.specs.Views.Forms.{IsConstantEnd, IsLiveSlot, IsTermCut};
ghost use Rattle.burr_asm.specs.Views.Forms.{begins_signed, begins_term, terms_of};

use crate::text::numbers::{coefficient, constant, slot};
use crate::text::words::NumberWord;
use burr_code::limits::SLOTS;
use burr_container::PlanForm;
use burr_text::cut_at;

/// A form as it is written: its constant, and after it its terms.
#[derive(Clone, Copy)]
pub struct FormWord<'a> {
    bytes: &'a [u8],
    /// How many of the bytes are the constant's.
    constant: usize,
    ghost formed: { IsTrue (is_form bytes.now) },
    ghost cut: { IsConstantEnd bytes.now constant },
}

/// The words of a term: its coefficient, without a `+`, and its slot.
#[derive(Clone, Copy)]
struct TermWords<'a> {
    coefficient: NumberWord<'a>,
    slot: NumberWord<'a>,
}

impl<'a> FormWord<'a> {
    /// The form that is all of these bytes; None where they are of no form.
    pub fn parse(bytes: &'a [u8]) -> Option<FormWord<'a>>
        ensures { MatchOption result (is_form bytes.now ≡ false) (λ word.
            (is_form bytes.now ≡ true) × (word.bytes.now ≡ bytes.now)) }
    {
        let constant = constant_end(bytes)?;
        if are_terms(&bytes[constant..]) {
            Some(FormWord { bytes, constant })
        } else {
            None
        }
    }

    /// The form that is written; None where a number is out of its range, a slot isn't live, or
    /// the slots don't rise.
    pub fn value(self, live: &[bool; SLOTS]) -> Option<PlanForm>
        ensures { MatchOption result (is_form_over live.now self.entry.bytes.now ≡ false) (λ form.
            (is_form_over live.now self.entry.bytes.now ≡ true)
            × (form ≡ form_in self.entry.bytes.now)) }
    {
        let (first, terms) = self.bytes.split_at(self.constant);
        let mut coefs = [0; SLOTS];
        let mut least = 0;
        let mut rest = terms;
        while let Some((term, more)) = TermWords::cut(rest) {
            let slot = live_slot(term.slot, least, live)?;
            coefs[slot] = coefficient(term.coefficient)?;
            least = slot + 1;
            rest = more;
        }
        let constant = constant(NumberWord::parse(first)?)?;
        Some(PlanForm { constant, coefs })
    }
}

/// The slot of this number; None where it is below the least, or isn't live.
fn live_slot(number: NumberWord<'_>, least: usize, live: &[bool; SLOTS]) -> Option<usize>
    ensures few { IfSome result (λ slot. slot < SLOTS) }
    ensures value { IsLiveSlot live.now least number.entry.bytes.now result }
{
    let slot = usize::from(slot(number)?);
    (least <= slot && live[slot]).then_some(slot)
}

/// Where the constant ends with which bytes begin.
fn constant_end(bytes: &[u8]) -> Option<usize>
    ensures { MatchOption result (is_number (constant_word bytes.now) ≡ false) (λ end.
        (is_number (constant_word bytes.now) ≡ true) × IsConstantEnd bytes.now end) }
{
    let (_first, others) = bytes.split_first()?;
    let end = 1 + before_sign(others);
    NumberWord::parse(&bytes[..end])?;
    Some(end)
}

/// How many bytes stand before the first sign; where there is no sign, how many there are.
fn before_sign(bytes: &[u8]) -> usize
    ensures few { result ≤ length bytes.now }
    ensures value { result ≡ position_or_len is_sign bytes.now }
{
    match first_sign(bytes) {
        Some(at) => at,
        None => bytes.len(),
    }
}

/// Where the first sign stands.
fn first_sign(bytes: &[u8]) -> Option<usize>
    ensures { result ≡ position is_sign bytes.now }
{
    bytes.iter().position(|byte| matches!(byte, b'+' | b'-'))
}

/// Whether the bytes, which begin with a sign where there are any, are terms.
fn are_terms(bytes: &[u8]) -> bool
    requires { IsTrue (begins_term bytes.now) }
    ensures { result ≡ list_all is_term (terms_of bytes.now) }
{
    let mut rest = bytes;
    while let Some((_term, more)) = TermWords::cut(rest) {
        rest = more;
    }
    rest.is_empty()
}

impl TermWords<'_> {
    /// The term with which bytes begin, and what stands after it; None where they begin with none.
    fn cut(bytes: &[u8]) -> Option<(TermWords<'_>, &[u8])>
        requires { IsTrue (begins_term bytes.now) }
        ensures { MatchOption result
            (list_all is_term (terms_of bytes.now) ≡ is_empty bytes.now) (λ found.
            IsTermCut bytes.now found.0.coefficient.bytes.now found.0.slot.bytes.now found.1.now) }
    {
        let (coefficient, bytes) = cut_at(number_of(bytes)?, b'v')?;
        let (slot, rest) = bytes.split_at(before_sign(bytes));
        let coefficient = NumberWord::parse(coefficient)?;
        let slot = NumberWord::parse(slot)?;
        Some((TermWords { coefficient, slot }, rest))
    }
}

/// What a signed number that isn't 0 is without a `+`, to the end of the bytes.
fn number_of(signed: &[u8]) -> Option<&[u8]>
    ensures { MatchOption result (begins_signed signed.now ≡ false) (λ number.
        (begins_signed signed.now ≡ true) × (number.now ≡ without_leading_plus signed.now)) }
{
    match signed {
        [b'+', b'1'..=b'9', ..] => Some(&signed[1..]),
        [b'-', ..] => Some(signed),
        _ => None,
    }
}
