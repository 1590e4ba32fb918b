//! The lines that a plan text may have: the word with which each begins, and what its other words
//! say.

use super::before::Before;
use burr_code::limits::MOST_PIECES;
use burr_text::{is_name, is_number};
use burr_voxels::Direction;
use std::fmt;

/// What a word of a line says.
#[derive(Clone, Copy)]
pub enum Operand {
    Name,
    Label,
    Procedure,
    /// A number that is called so, from one bound to the other.
    Number(&'static str, i64, i64),
    /// Pieces of the plan, or none.
    Set,
    /// Pieces that `grip` grips: one at least.
    Grip,
    Form,
    Direction,
    Byte,
    Apart,
}

const PIECE: Operand = Operand::Number("PIECE", 0, 31);

const TRAY: Operand = Operand::Number("TRAY", 0, 31);

const SLOT: Operand = Operand::Number("SLOT", 0, 7);

const PARAMETERS: Operand = Operand::Number("PARAMETERS", 0, 4);

const RESULTS: Operand = Operand::Number("RESULTS", 0, 2);

const LOW: Operand = Operand::Number("LO", -32_767, 32_767);

const HIGH: Operand = Operand::Number("HI", -32_767, 32_767);

const TITLE: &[Operand] = &[
    Operand::Name,
    Operand::Number("PIECES", 2, 32),
    Operand::Number("BUDGET", 1, 1_000_000),
];

/// The operands of `proc` where procedures have no results.
const FIRST_VERSION: &[Operand] = &[Operand::Name, PARAMETERS];

const APART: &[Operand] = &[PIECE, Operand::Apart];

/// The words with which lines begin, each with those that stand after it where all may.
pub const LINES: &[(&str, &[Operand])] = &[
    ("plan", TITLE),
    ("plan2", TITLE),
    ("proc", &[Operand::Name, PARAMETERS, RESULTS]),
    ("exit", &[TRAY, Operand::Set]),
    ("result", &[LOW, HIGH]),
    ("label", &[Operand::Name]),
    ("frame", &[TRAY, Operand::Set]),
    ("slot", &[SLOT, LOW, HIGH]),
    ("guard", &[Operand::Form]),
    ("stack", &[Operand::Form]),
    ("cost", &[Operand::Form]),
    (
        "at",
        &[PIECE, TRAY, Operand::Form, Operand::Form, Operand::Form],
    ),
    ("grip", &[Operand::Grip]),
    ("step", &[Operand::Direction]),
    ("aside", &[Operand::Direction, TRAY]),
    ("tray", &[TRAY]),
    ("halt", &[]),
    ("push", &[Operand::Number("NUMBER", -32_767, 32_767)]),
    ("load", &[SLOT]),
    ("store", &[SLOT]),
    ("add", &[]),
    ("sub", &[]),
    ("drop", &[]),
    ("jump", &[Operand::Label]),
    ("down", &[SLOT, Operand::Label]),
    ("ask", &[LOW, HIGH]),
    ("pick", &[Operand::Label; 8]),
    ("call", &[Operand::Procedure]),
    ("ret", &[]),
    ("byte", &[Operand::Byte]),
];

/// A line of the grammar.
#[derive(Clone, Copy, Drop)]
pub struct LineForm {
    pub word: &'static str,
    pub operands: &'static [Operand],
    /// How many of the operands there are at least.
    needed: usize,
}

impl LineForm {
    /// The form that a line with these words has, by the first of them; none where no line begins
    /// so.
    pub fn of(words: &[&str], before: &Before<'_>) -> Option<LineForm> {
        let (word, all) = LINES
            .iter()
            .find(|(known, _)| words.first() == Some(known))?;
        let operands = match *word {
            "proc" if !before.has_results() => FIRST_VERSION,
            "at" if is_apart(words) => APART,
            _ => *all,
        };
        Some(LineForm {
            word: *word,
            operands,
            needed: if *word == "pick" { 2 } else { operands.len() },
        })
    }

    /// The place of the first operand that is not of the form, or out of its range where ranges
    /// count; or where one is missing, or too much.
    pub fn misfit(&self, words: &[&str], before: &Before<'_>, ranges_count: bool) -> Option<usize> {
        let operands = words.iter().skip(1);
        for (place, (operand, word)) in self.operands.iter().zip(operands).enumerate() {
            if !operand.is_written(word) || ranges_count && !operand.is_in_range(word, before) {
                return Some(place);
            }
        }
        let count = words.len().saturating_sub(1);
        let is_whole = self.needed <= count && count <= self.operands.len();
        (!is_whole).then_some(count.min(self.operands.len()))
    }
}

impl fmt::Display for LineForm {
    fn fmt<W: fmt::Write>(&self, f: &mut fmt::Formatter<W>) -> fmt::Result {
        write!(f, "{}", self.word)?;
        for operand in self.operands.iter().take(self.needed) {
            write!(f, " {}", operand.words().0)?;
        }
        if self.needed < self.operands.len() {
            write!(f, " ..")?;
        }
        Ok(())
    }
}

/// Whether the words of an `at` line say that a piece is apart.
fn is_apart(words: &[&str]) -> bool {
    match words {
        [_, _, word] => !is_number(word.as_bytes()),
        [_, _, word, ..] => *word == "apart",
        _ => false,
    }
}

impl Operand {
    /// Whether a word is of this form.
    pub fn is_written(&self, word: &str) -> bool {
        match self {
            Operand::Name | Operand::Label | Operand::Procedure => is_name(word.as_bytes()),
            Operand::Number(..) => is_number(word.as_bytes()),
            Operand::Set | Operand::Grip => {
                word == "-" || word.split(',').all(|number| is_number(number.as_bytes()))
            }
            Operand::Form => is_form(word),
            Operand::Direction => Direction::named(word.as_bytes()).is_some(),
            Operand::Byte => {
                word.len() == 2
                    && word
                        .bytes()
                        .all(|byte| matches!(byte, b'0'..=b'9' | b'a'..=b'f'))
            }
            Operand::Apart => word == "apart",
        }
    }

    /// Whether a word that is of this form is in its range after these lines.
    fn is_in_range(&self, word: &str, before: &Before<'_>) -> bool {
        match self {
            Operand::Number(_, low, high) => match word.parse::<i64>() {
                Ok(number) => *low <= number && number <= *high,
                Err(_) => false,
            },
            Operand::Set => word == "-" || rise_below(word, before.pieces()),
            Operand::Grip => rise_below(word, MOST_PIECES),
            _ => true,
        }
    }

    /// What it is called, and what is wanted of it.
    fn words(&self) -> (&'static str, &'static str) {
        match self {
            Operand::Name => (
                "NAME",
                "letters, digits, `_` and `-`, a letter first, 32 at most",
            ),
            Operand::Label => ("LABEL", "the name of a label"),
            Operand::Procedure => ("PROCEDURE", "the name of a procedure"),
            Operand::Number(name, _, _) => (*name, "a number"),
            Operand::Set => ("SET", "rising numbers of pieces, as `0,2`, or `-` for none"),
            Operand::Grip => ("SET", "rising numbers of pieces, as `0,2`"),
            Operand::Form => (
                "FORM",
                "a number, and then terms of rising slots, as `4+2v0-3v1`",
            ),
            Operand::Direction => ("DIRECTION", "`+x`, `-x`, `+y`, `-y`, `+z` or `-z`"),
            Operand::Byte => ("XX", "two digits, each of 0 to 9 or a to f"),
            Operand::Apart => ("apart", "the word itself, or a tray and three forms"),
        }
    }
}

impl fmt::Display for Operand {
    fn fmt<W: fmt::Write>(&self, f: &mut fmt::Formatter<W>) -> fmt::Result {
        let (name, wanted) = self.words();
        write!(f, "{name} belongs: {wanted}")?;
        match self {
            Operand::Number(_, low, high) => write!(f, " of {low} to {high}"),
            _ => Ok(()),
        }
    }
}

/// Whether a word is a number without a sign.
fn is_count(word: &str) -> bool {
    is_number(word.as_bytes()) && !word.starts_with('-')
}

/// Whether a word is a number, and after it terms of slots.
fn is_form(word: &str) -> bool {
    let unsigned = word.strip_prefix('-').unwrap_or(word);
    match unsigned.rsplit_once('v') {
        None => is_number(word.as_bytes()),
        Some((terms, slot)) => {
            !word.starts_with("-0") && is_count(slot) && terms.split('v').all(is_before_slot)
        }
    }
}

/// Whether a part of a form, between a `v` and the next, is a number, a sign and a number that is
/// not 0.
fn is_before_slot(part: &str) -> bool {
    match part.split_once(|mark| matches!(mark, '+' | '-')) {
        Some((number, factor)) => is_count(number) && is_count(factor) && factor != "0",
        None => false,
    }
}

/// Whether numbers that are joined by commas rise, and are below a bound.
fn rise_below(word: &str, bound: usize) -> bool {
    let mut least = 0;
    for number in word.split(',') {
        match number.parse::<usize>() {
            Ok(piece) if least <= piece && piece < bound => least = piece.saturating_add(1),
            _ => return false,
        }
    }
    true
}
