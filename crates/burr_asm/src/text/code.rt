ghost use Rattle.std.specs.Prelude.{◌≡◌, ◌≤◌, ◌∷◌, None, false, length, true, IfSome, MatchOption, [], Some, ◌<◌};
ghost use Rattle.burr_code.specs.Instruction.{spelled, IsInRange};
ghost use Rattle.burr_code.specs.Meaning.{meaning};
ghost use Rattle.burr_plantext.specs.Rules.Checks.{is_in_range};
ghost use Rattle.burr_plantext.specs.Rules.Meaning.{code_size};
ghost use Rattle.burr_plantext.specs.Rules.Statements.{code_of, hex_value, is_hex_digit, raw_byte, Byte};
ghost use Rattle.burr_plantext.specs.Rules.Texts.{words_of};
ghost use Rattle.burr_asm.specs.Views.LineWords.{number_words, plain_words, code_words};
ghost use Rattle.burr_asm.specs.Views.Plain.{IsPlain};
ghost use Rattle.burr_asm.specs.Views.Keywords.{operands_line};

use crate::text::line::{CodeKeyword, NumberKeyword};
use crate::text::names::OfferWords;
use crate::text::numbers::{operand, range, slot, tray};
use crate::text::words::{BareWord, NumberWord, SetWord, gripped_set, name};
use burr_code::Instr;
use burr_text::cut_at;
use burr_voxels::Direction;

/// A line of an instruction that names no label and no procedure, by its form alone.
#[derive(Clone, Copy)]
pub enum PlainLine<'a> {
    /// An instruction without operands.
    Bare(BareWord<'a>),
    /// `push NUMBER`, `load SLOT`, `store SLOT` or `tray TRAY`
    Number(NumberKeyword, NumberWord<'a>),
    /// `grip SET`
    Grip(SetWord<'a>),
    /// `step DIRECTION`
    Step(Direction),
    /// `aside DIRECTION TRAY`
    Aside(Direction, NumberWord<'a>),
    /// `ask LOW HIGH`
    Ask(NumberWord<'a>, NumberWord<'a>),
}

impl<'a> PlainLine<'a> {
    /// The instruction; None where a number or a set is out of its range.
    pub fn instr(self) -> Option<Instr<'a>>
        ensures range { IfSome result (λ instr. IsInRange (meaning instr)) }
        ensures short { IfSome result (λ instr. length (spelled (meaning instr)) ≤ 5) }
        ensures value { MatchOption result (is_in_range (plain_words self.entry) ≡ false) (λ instr.
            (is_in_range (plain_words self.entry) ≡ true)
            × IsPlain (meaning instr) (plain_words self.entry)) }
    {
        match self {
            PlainLine::Bare(word) => Some(word.instr()),
            PlainLine::Number(keyword, word) => with_number(keyword, word),
            PlainLine::Grip(set) => Some(Instr::Grip(gripped_set(set)?)),
            PlainLine::Step(direction) => Some(Instr::Step(direction)),
            PlainLine::Aside(direction, word) => Some(Instr::Aside(direction, tray(word)?)),
            PlainLine::Ask(low, high) => {
                let (low, high) = range(low, high)?;
                Some(Instr::Ask(low, high))
            }
        }
    }
}

/// The instruction whose only operand is a number; None where the number is out of its range.
fn with_number<'a>(keyword: NumberKeyword, word: NumberWord<'a>) -> Option<Instr<'a>>
    ensures range { IfSome result (λ instr. IsInRange (meaning instr)) }
    ensures short { IfSome result (λ instr. length (spelled (meaning instr)) ≤ 5) }
    ensures value { MatchOption result
        (is_in_range (number_words keyword word.entry.bytes.now) ≡ false) (λ instr.
        (is_in_range (number_words keyword word.entry.bytes.now) ≡ true)
        × IsPlain (meaning instr) (number_words keyword word.entry.bytes.now)) }
{
    match keyword {
        NumberKeyword::Push => Some(Instr::Push(operand(word)?)),
        NumberKeyword::Load => Some(Instr::Load(slot(word)?)),
        NumberKeyword::Store => Some(Instr::Store(slot(word)?)),
        NumberKeyword::Tray => Some(Instr::Tray(tray(word)?)),
    }
}

/// A line of code by its form alone: an instruction's word and its operands, or one raw byte.
#[derive(Clone, Copy)]
pub enum CodeLine<'a> {
    /// An instruction that names nothing.
    Plain(PlainLine<'a>),
    /// `jump LABEL`
    Jump(&'a [u8]),
    /// `down SLOT LABEL`
    Down(NumberWord<'a>, &'a [u8]),
    /// `pick LABEL LABEL ..`
    Pick(OfferWords<'a>),
    /// `call PROCEDURE`
    Call(&'a [u8]),
    /// `byte XX`
    Byte(u8),
}

impl CodeLine<'_> {
    /// How many bytes it has: 1 to 18; None where a number or a set is out of its range.
    pub fn size(self) -> Option<usize>
        ensures few { IfSome result (λ size. size ≤ 18) }
        ensures value { let words = code_words self.entry in
            MatchOption result (is_in_range words ≡ false) (λ size.
            (is_in_range words ≡ true) × (size ≡ code_size (words ∷ []))) }
    {
        match self {
            CodeLine::Plain(line) => Some(line.instr()?.size()),
            CodeLine::Jump(_) => Some(3),
            CodeLine::Down(word, _) => {
                slot(word)?;
                Some(4)
            }
            CodeLine::Pick(labels) => Some(2 + 2 * labels.count),
            CodeLine::Call(_) => Some(2),
            CodeLine::Byte(_) => Some(1),
        }
    }

    /// The line that is this one word; None where it is of no form.
    pub fn of_word(word: &[u8]) -> Option<CodeLine<'_>>
        ensures { MatchOption result (code_of word.now [] ≡ None) (λ line.
            code_of word.now [] ≡ Some (code_words line)) }
    {
        Some(CodeLine::Plain(PlainLine::Bare(BareWord::parse(word)?)))
    }

    /// The line that begins with a keyword, and what stands after the blank; None where it is of no
    /// form.
    pub fn with_operands(keyword: CodeKeyword, words: &[u8]) -> Option<CodeLine<'_>>
        ensures { MatchOption result (operands_line keyword (words_of words.now) ≡ None) (λ line.
            operands_line keyword (words_of words.now) ≡ Some (code_words line)) }
    {
        match keyword {
            CodeKeyword::Number(keyword) => Some(CodeLine::Plain(PlainLine::Number(
                keyword,
                NumberWord::parse(words)?,
            ))),
            CodeKeyword::Ask => {
                let (low, high) = NumberWord::cut(words)?;
                Some(CodeLine::Plain(PlainLine::Ask(low, NumberWord::parse(high)?)))
            }
            CodeKeyword::Grip => Some(CodeLine::Plain(PlainLine::Grip(SetWord::parse(words)?))),
            CodeKeyword::Step => Some(CodeLine::Plain(PlainLine::Step(Direction::named(words)?))),
            CodeKeyword::Aside => {
                let (word, tray) = cut_at(words, b' ')?;
                let direction = Direction::named(word)?;
                Some(CodeLine::Plain(PlainLine::Aside(direction, NumberWord::parse(tray)?)))
            }
            CodeKeyword::Jump => Some(CodeLine::Jump(name(words)?)),
            CodeKeyword::Down => {
                let (slot, label) = NumberWord::cut(words)?;
                Some(CodeLine::Down(slot, name(label)?))
            }
            CodeKeyword::Pick => Some(CodeLine::Pick(OfferWords::parse(words)?)),
            CodeKeyword::Call => Some(CodeLine::Call(name(words)?)),
            CodeKeyword::Byte => Some(CodeLine::Byte(hex_byte(words)?)),
        }
    }
}

/// The byte with two digits of base 16.
fn hex_byte(bytes: &[u8]) -> Option<u8>
    ensures { MatchOption result (raw_byte bytes.now ≡ None) (λ byte.
        raw_byte bytes.now ≡ Some (Byte byte)) }
{
    match bytes {
        [high, low] => Some(16 * hex_digit(*high)? + hex_digit(*low)?),
        _ => None,
    }
}

/// The digit, 0 to 15, where the byte is one in lower case.
fn hex_digit(byte: u8) -> Option<u8>
    ensures few { IfSome result (λ digit. digit < 16) }
    ensures value { MatchOption result (is_hex_digit byte ≡ false) (λ digit.
        (is_hex_digit byte ≡ true) × (digit ≡ hex_value byte)) }
{
    match byte {
        b'0'..=b'9' => Some(byte - b'0'),
        b'a'..=b'f' => Some(byte - b'a' + 10),
        _ => None,
    }
}
