ghost use Rattle.std.specs.Prelude.{◌≡◌, [], length, MatchOption, None, Some, IsTrue, true, false, ◌<◌, ◌≤◌, ◌≢◌, IfSome};
ghost use Rattle.burr_container.specs.Rules.Fitting.{is_name_text};
ghost use Rattle.burr_code.specs.Instruction.{IsInRange, spelled};
ghost use Rattle.burr_code.specs.Meaning.{meaning};
ghost use Rattle.burr_plantext.specs.Rules.Checks.{is_in_range};
ghost use Rattle.burr_plantext.specs.Rules.Statements.{code_of};
ghost use Rattle.burr_plantext.specs.Rules.Texts.{first_word, is_skipped, words_of};
ghost use Rattle.burr_plantext.specs.Rules.Written.{is_number, is_set, pieces};
ghost use Rattle.burr_asm.specs.Views.Words.{cut_word, line_alone};
ghost use Rattle.burr_asm.specs.Views.Plain.{IsPlain};
ghost use Rattle.std.specs.List.{list_all};
ghost use Rattle.burr_asm.specs.Views.Sets.{IsGripped, IsMember, IsSetBelow};

use crate::text::numbers::byte;
use burr_code::Instr;
use burr_plantext::bare_instr;
use burr_text::{cut_at, is_name, is_number};

/// A number as it is written: `0`, or digits whose first isn't `0`, perhaps after a `-`.
#[derive(Clone, Copy)]
pub struct NumberWord<'a> {
    bytes: &'a [u8],
    ghost formed: { IsTrue (is_number bytes.now) },
}

impl<'a> NumberWord<'a> {
    /// The number that is all of these bytes.
    pub fn parse(bytes: &'a [u8]) -> Option<NumberWord<'a>>
        ensures { MatchOption result (is_number bytes.now ≡ false) (λ word.
            (is_number bytes.now ≡ true) × (word.bytes.now ≡ bytes.now)) }
    {
        if is_number(bytes) {
            Some(NumberWord { bytes })
        } else {
            None
        }
    }

    /// A number up to the first blank, and what stands after the blank.
    pub fn cut(bytes: &'a [u8]) -> Option<(NumberWord<'a>, &'a [u8])>
        ensures { MatchOption result (cut_word is_number (words_of bytes.now) ≡ None) (λ parts.
            cut_word is_number (words_of bytes.now)
            ≡ Some (parts.0.bytes.now, words_of parts.1.now)) }
    {
        let (word, rest) = cut_at(bytes, b' ')?;
        Some((NumberWord::parse(word)?, rest))
    }

    /// Its text.
    pub fn as_str(self) -> &'a str
        ensures text { result.now ≡ self.entry.bytes.now }
        ensures number { IsTrue (is_number self.entry.bytes.now) }
    {
        str::from_utf8(self.bytes).unwrap()
    }
}

/// An instruction without operands, by its word.
#[derive(Clone, Copy)]
pub struct BareWord<'a> {
    bytes: &'a [u8],
    ghost known: { code_of bytes.now [] ≡ Some (line_alone bytes.now) },
}

impl<'a> BareWord<'a> {
    /// The instruction whose line is this one word.
    pub fn parse(bytes: &'a [u8]) -> Option<BareWord<'a>>
        ensures { MatchOption result (code_of bytes.now [] ≡ None) (λ word.
            code_of bytes.now [] ≡ Some (line_alone word.bytes.now)) }
    {
        bare_instr(bytes)?;
        Some(BareWord { bytes })
    }

    /// The instruction.
    pub fn instr(self) -> Instr<'static>
        ensures range { IsInRange (meaning result) }
        ensures short { length (spelled (meaning result)) ≡ 1 }
        ensures value { (is_in_range (line_alone self.entry.bytes.now) ≡ true)
            × IsPlain (meaning result) (line_alone self.entry.bytes.now) }
    {
        bare_instr(self.bytes).unwrap()
    }
}

/// What stands before the first blank of a line, or all of it where it has none.
pub fn first_word(line: &[u8]) -> &[u8]
    ensures { result.now ≡ first_word line.now }
{
    match cut_at(line, b' ') {
        Some((word, _rest)) => word,
        None => line,
    }
}

/// Whether a line says nothing: it is empty, or begins with `;`.
pub fn is_skipped(line: &[u8]) -> bool
    ensures { result ≡ is_skipped line.now }
{
    matches!(line, [] | [b';', ..])
}

/// The name that is all of these bytes.
pub fn name(bytes: &[u8]) -> Option<&[u8]>
    ensures { MatchOption result (is_name_text bytes.now ≡ false) (λ word.
        (is_name_text bytes.now ≡ true) × (word.now ≡ bytes.now)) }
{
    is_name(bytes).then_some(bytes)
}

/// A name up to the first blank, and what stands after the blank.
pub fn cut_name(bytes: &[u8]) -> Option<(&[u8], &[u8])>
    ensures { MatchOption result (cut_word is_name_text (words_of bytes.now) ≡ None) (λ parts.
        cut_word is_name_text (words_of bytes.now) ≡ Some (parts.0.now, words_of parts.1.now)) }
{
    let (word, rest) = cut_at(bytes, b' ')?;
    Some((name(word)?, rest))
}

/// A set of pieces as it is written: `-`, or numbers joined by `,`.
#[derive(Clone, Copy)]
pub struct SetWord<'a> {
    bytes: &'a [u8],
    ghost formed: { IsTrue (is_set bytes.now) },
}

impl<'a> SetWord<'a> {
    /// The set that is all of these bytes.
    pub fn parse(bytes: &'a [u8]) -> Option<SetWord<'a>>
        ensures { MatchOption result (is_set bytes.now ≡ false) (λ word.
            (is_set bytes.now ≡ true) × (word.bytes.now ≡ bytes.now)) }
    {
        if is_set(bytes) {
            Some(SetWord { bytes })
        } else {
            None
        }
    }
}

/// Whether the bytes are of the form of a set of pieces.
fn is_set(bytes: &[u8]) -> bool
    ensures { result ≡ is_set bytes.now }
{
    bytes == b"-".as_slice() || are_numbers(bytes)
}

/// Whether the bytes are numbers joined by `,`.
fn are_numbers(bytes: &[u8]) -> bool
    ensures { result ≡ list_all is_number (pieces 44 bytes.now) }
{
    let mut rest = bytes;
    while let Some((number, more)) = cut_at(rest, b',') {
        if !is_number(number) {
            return false;
        }
        rest = more;
    }
    is_number(rest)
}

/// The set that a word writes, bit p for piece p; None where its numbers don't rise, or
/// one of them isn't below the bound, which is at most 32.
pub fn piece_set(word: SetWord<'_>, bound: u8) -> Option<u32>
    requires { bound ≤ 32 }
    ensures { IsSetBelow bound word.entry.bytes.now result }
{
    if word.bytes == b"-".as_slice() {
        return Some(0);
    }
    let mut set = 0;
    let mut least = 0;
    let mut rest = word.bytes;
    while let Some((number, more)) = cut_at(rest, b',') {
        let piece = member(NumberWord::parse(number)?, least, bound)?;
        set |= 1u32 << piece;
        least = piece + 1;
        rest = more;
    }
    let piece = member(NumberWord::parse(rest)?, least, bound)?;
    Some(set | 1u32 << piece)
}

/// The piece of this number; None where it is below the least, or isn't below the bound.
fn member(number: NumberWord<'_>, least: u8, bound: u8) -> Option<u8>
    requires { bound ≤ 32 }
    ensures { IsMember least bound number.entry.bytes.now result }
{
    let piece = byte(number)?;
    (least <= piece && piece < bound).then_some(piece)
}

/// The set in a `grip`: one piece at least, each below 32.
pub fn gripped_set(word: SetWord<'_>) -> Option<u32>
    ensures some { IfSome result (λ set. set ≢ 0) }
    ensures value { IsGripped word.entry.bytes.now result }
{
    let set = piece_set(word, 32)?;
    (set != 0).then_some(set)
}
