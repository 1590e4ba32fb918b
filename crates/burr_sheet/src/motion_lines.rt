//! The motions whose lines a text is.

ghost use Rattle.std.specs.Prelude.{◌≡◌, ◌≤◌, ◌+◌, ◌++◌, ◌∷◌, [], List, ℕ, false, length, IfOk, OnOk, MatchOption, Bool, codes, decimal, ◌≢◌, ◌<◌, ◌^◌};
ghost use Rattle.burr_assembly.specs.Rules.Homes.{names_of};
ghost use Rattle.burr_state.specs.declared.effect.Motion.{Motion as MotionOf};
ghost use Rattle.burr_sheet.specs.Rules.Expanding.{AreLinesOf};
ghost use Rattle.burr_sheet.specs.Rules.SheetText.{MoveLine, move_line, motion_count, motions_of, motion_on};
ghost use Rattle.burr_sheet.specs.Views.MotionLines.{BeginsWithLine, IsLineOf, joins_last, line_of, AreWordsOf, ArePlain, IsCutInto, ending_text, words_text, IsFirstName, group_text};

use crate::laws::a_reference_holds_an_assembly;
use burr_assembly::Assembly;
use burr_code::limits::{MOST_BUDGET, TRAYS};
use burr_state::Motion;
use burr_text::{cut_at, integer};
use burr_voxels::Direction;
use itoa::Buffer;
use std::alloc::{AllocError, Global};

/// The motions of an assembly's pieces whose lines a text is, as they stand at the head of a sheet:
/// numbered from 1, motions that may share a line on one, each line ended. None where the text is
/// the lines of no motions, or of more than 1,000,000; no group is empty, and no line without a
/// motion. A text of no bytes is that of no motions. `AllocError` where a request for memory was
/// refused.
pub fn expand(
    alloc: Global,
    assembly: &Assembly,
    text: &[u8],
) -> Result<Option<Vec<Motion>>, AllocError>
    ensures { IfOk result (λ found. MatchOption found
        ((motions : List MotionOf) → ¬ AreLinesOf (names_of assembly.now) text.now motions)
        (λ motions. AreLinesOf (names_of assembly.now) text.now motions.items)) }
{
    let mut motions = Vec::new(alloc);
    let mut last = None;
    let mut number = 1;
    let mut rest = text;
    while !rest.is_empty() {
        let Some((line, after)) = next_line(assembly, motions.len(), last, number, rest) else {
            return Ok(None);
        };
        add_motions(line, &mut motions)?;
        last = Some(line);
        number += 1;
        rest = after;
    }
    Ok(Some(motions))
}

/// The line of a number at the head of a text, and what follows it. None where there is no such
/// line, where it and the line before would be one line, and where it and the lines before have
/// more motions than a run makes.
fn next_line<'a>(
    assembly: &Assembly,
    motions: usize,
    last: Option<MotionLine>,
    number: u32,
    text: &'a [u8],
) -> Option<(MotionLine, &'a [u8])>
    requires { motions ≤ MOST_BUDGET }
    ensures { MatchOption result
        ((l : MoveLine) (after : List ℕ) → IsLineOf (length (names_of assembly.now)) l
        → joins_last last (l ∷ []) ≡ false → motions + motion_count l ≤ MOST_BUDGET
        → ¬ (text.now ≡ move_line (names_of assembly.now) number l ++ after))
        (λ read. BeginsWithLine (names_of assembly.now) number text.now (line_of read.0) read.1.now
        × (joins_last last (line_of read.0 ∷ []) ≡ false)
        × (motions + motion_count (line_of read.0) ≤ MOST_BUDGET)) }
{
    let (line, after) = line_at(assembly, number, text)?;
    if line.joins(last) || motions + line.motion_count() > MOST_BUDGET as usize {
        return None;
    }
    Some((line, after))
}

/// Adds the motions of a line: its steps, and the aside that ends it, if one does.
fn add_motions(line: MotionLine, motions: &mut Vec<Motion>) -> Result<(), AllocError>
    ensures { OnOk result (motions.new.items ≡ motions.old.items ++ motions_of (line_of line)) }
{
    for _ in 0..line.units {
        motions.push(line.motion(false))?;
    }
    if line.out {
        motions.push(line.motion(true))?;
    }
    Ok(())
}

/// A line of a text: unit steps of one group in one tray along one direction.
#[derive(Clone, Copy)]
pub struct MotionLine {
    /// The pieces that move: bit p is piece p.
    pub group: u32,
    pub tray: u8,
    pub direction: Direction,
    pub units: u32,
    /// Whether an aside ends it.
    pub out: bool,
}

impl MotionLine {
    /// How many motions the line has.
    pub fn motion_count(self) -> usize
        ensures { result ≡ motion_count (line_of self) }
    {
        self.units as usize + usize::from(self.out)
    }

    /// A motion of the line: a step, or the way out of the tray.
    pub fn motion(self, out: bool) -> Motion
        ensures { result ≡ motion_on (line_of self) out }
    {
        Motion {
            group: self.group,
            tray: self.tray,
            dir: self.direction,
            out,
        }
    }

    /// Whether the line and the one before it would be one: no aside ends that one, and group, tray
    /// and direction are equal.
    pub fn joins(self, last: Option<MotionLine>) -> bool
        ensures { result ≡ joins_last last (line_of self ∷ []) }
    {
        match last {
            Some(line) => {
                !line.out
                    && line.group == self.group
                    && line.tray == self.tray
                    && line.direction.number() == self.direction.number()
            }
            None => false,
        }
    }
}

/// The line of a number at the head of a text, and what follows it.
pub fn line_at<'a>(
    assembly: &Assembly,
    number: u32,
    text: &'a [u8],
) -> Option<(MotionLine, &'a [u8])>
    ensures { MatchOption result
        ((l : MoveLine) (after : List ℕ) → IsLineOf (length (names_of assembly.now)) l
        → ¬ (text.now ≡ move_line (names_of assembly.now) number l ++ after))
        (λ read. BeginsWithLine (names_of assembly.now) number text.now (line_of read.0)
        read.1.now) }
{
    // So its names hold no blank.
    a_reference_holds_an_assembly(assembly);
    let (words, after) = words_at(number, text)?;
    Some((line_with(assembly, words)?, after))
}

/// The line with these words.
fn line_with(assembly: &Assembly, words: LineWords<'_>) -> Option<MotionLine>
    ensures { MatchOption result
        ((l : MoveLine) → IsLineOf (length (names_of assembly.now)) l
        → ¬ AreWordsOf (names_of assembly.now) words.entry l)
        (λ line. IsLineOf (length (names_of assembly.now)) (line_of line)
        × AreWordsOf (names_of assembly.now) words.entry (line_of line)) }
{
    let tray = count(words.tray, u32::from(TRAYS) - 1)?;
    let group = group_named(assembly, words.names)?;
    let direction = Direction::named(words.direction)?;
    let (units, out) = ending(words.ending)?;
    if units == 0 && !out {
        return None;
    }
    Some(MotionLine {
        group,
        tray: tray as u8,
        direction,
        units,
        out,
    })
}

/// The words of a line after its number.
#[derive(Clone, Copy)]
pub struct LineWords<'a> {
    /// The tray's number, without the `t` before it.
    pub tray: &'a [u8],
    pub names: &'a [u8],
    pub direction: &'a [u8],
    /// The units, and perhaps the word `out`.
    pub ending: &'a [u8],
}

/// The words of the line of a number at the head of a text, and what follows the line.
pub fn words_at(number: u32, text: &[u8]) -> Option<(LineWords<'_>, &[u8])>
    ensures { MatchOption result
        ((tray names direction ending after : List ℕ) → ArePlain tray names direction ending
        → ¬ (text.now ≡ words_text number tray names direction ending after))
        (λ read. IsCutInto number text.now read.0 read.1.now) }
{
    let text = after_number(number, text)?;
    let (tray, text) = cut_at(text, b' ')?;
    let (names, text) = cut_at(text, b' ')?;
    let (direction, text) = cut_at(text, b' ')?;
    let (ending, after) = cut_at(text, b'\n')?;
    let words = LineWords {
        tray,
        names,
        direction,
        ending,
    };
    Some((words, after))
}

/// What follows the number of a line and ` t`.
fn after_number(number: u32, text: &[u8]) -> Option<&[u8]>
    ensures { MatchOption result
        ((rest : List ℕ) → ¬ (text.now ≡ decimal number ++ (codes " t" ++ rest)))
        (λ rest. text.now ≡ decimal number ++ (codes " t" ++ rest.now)) }
{
    let mut buffer = Buffer::new();
    let rest = after_front(text, buffer.format(number).as_bytes())?;
    after_front(rest, b" t")
}

/// What follows these bytes at the head of a text.
fn after_front<'a>(text: &'a [u8], front: &[u8]) -> Option<&'a [u8]>
    ensures { MatchOption result ((rest : List ℕ) → ¬ (text.now ≡ front.now ++ rest)) (λ rest.
        text.now ≡ front.now ++ rest.now) }
{
    text.strip_prefix(front)
}

/// The number of at most this much that is written so.
pub fn count(word: &[u8], most: u32) -> Option<u32>
    requires { most ≤ MOST_BUDGET }
    ensures { MatchOption result ((n : ℕ) → n ≤ most → ¬ (word.now ≡ decimal n)) (λ n.
        (n ≤ most) × (word.now ≡ decimal n)) }
{
    let value = integer(word)?;
    if value < 0 || (most as i32) < value {
        return None;
    }
    Some(value as u32)
}

/// The units that are written so, and whether the word `out` follows them.
pub fn ending(word: &[u8]) -> Option<(u32, bool)>
    ensures { MatchOption result
        ((units : ℕ) (out : Bool) → units ≤ MOST_BUDGET → ¬ (word.now ≡ ending_text units out))
        (λ read. (read.0 ≤ MOST_BUDGET) × (word.now ≡ ending_text read.0 read.1)) }
{
    let Some((units, after)) = cut_at(word, b' ') else {
        return Some((count(word, MOST_BUDGET)?, false));
    };
    if after != b"out".as_slice() {
        return None;
    }
    Some((count(units, MOST_BUDGET)?, true))
}

/// The group with these names: those of its pieces in their order, a comma between each two.
pub fn group_named(assembly: &Assembly, names: &[u8]) -> Option<u32>
    ensures { MatchOption result
        ((g : ℕ) → g ≢ 0 → g < 2 ^ length (names_of assembly.now)
        → ¬ (names.now ≡ group_text (names_of assembly.now) g))
        (λ g. (g ≢ 0) × (g < 2 ^ length (names_of assembly.now))
        × (names.now ≡ group_text (names_of assembly.now) g)) }
{
    let mut group = 0;
    let mut left = Some(names);
    for piece in 0..assembly.piece_count() {
        let (name, rest) = first_name(left);
        if name == assembly.piece_name(piece).as_bytes() {
            group |= 1 << piece;
            left = rest;
        }
    }
    match left {
        Some(_) => None,
        None => Some(group),
    }
}

/// The first of the names that are left, which is empty where none is, and what is left after it.
fn first_name(left: Option<&[u8]>) -> (&[u8], Option<&[u8]>)
    ensures { IsFirstName left.entry result.0.now result.1 }
{
    let Some(names) = left else {
        return (b"", None);
    };
    match cut_at(names, b',') {
        Some((name, rest)) => (name, Some(rest)),
        None => (names, None),
    }
}
