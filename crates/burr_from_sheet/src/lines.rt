//! The move lines of a sheet, and the motions whose lines they are.

ghost use Rattle.std.specs.Prelude.{◌≡◌, All, IfErr, IfOk, MatchBool, ◌<◌, IfSome};
ghost use Rattle.burr_from_sheet.specs.Drafts.{MayBeMade};
ghost use Rattle.burr_from_sheet.specs.SheetPlans.{AreOfMotions, IsFirstFaulty, TellsFaultyLine, first_lines as first_lines_of, move_lines_of};

use crate::check::SheetFault;
use burr_assembly::Assembly;
use burr_code::is_in_set;
use burr_code::limits::{MOST_BUDGET, TRAYS};
use burr_lines::{Shown, numbered_line};
use burr_sheet::expand;
use burr_state::Motion;
use burr_text::{integer, is_number};
use burr_voxels::Direction;
use std::alloc::{AllocError, Global};
use thiserror::Error;

/// The move lines of a sheet: what stands before its first line that begins `levels `, and all of it
/// where there is no such line.
pub fn move_lines(sheet: &[u8]) -> &[u8]
    ensures { result.now ≡ move_lines_of sheet.now }
{
    let mut begins = true;
    for (place, byte) in sheet.iter().enumerate() {
        if begins && sheet[place..].starts_with(b"levels ") {
            return &sheet[..place];
        }
        begins = *byte == b'\n';
    }
    sheet
}

/// The motions whose lines these are, or else the first faulty line.
pub fn motions_of(
    alloc: Global,
    assembly: &Assembly,
    lines: &[u8],
) -> Result<Vec<Motion>, SheetFault>
    ensures motions { IfOk result (λ motions. All MayBeMade motions.items) }
    ensures line { IfErr result (TellsFaultyLine assembly.now lines.now) }
{
    match expand(alloc, assembly, lines)? {
        Some(motions) => Ok(motions),
        None => Err(SheetFault::Line(first_faulty_line(alloc, assembly, lines)?)),
    }
}

/// Whether a text is the lines of motions.
fn are_lines_of_motions(alloc: Global, assembly: &Assembly, text: &[u8]) -> Result<bool, AllocError>
    ensures { IfOk result (λ are.
        MatchBool are (AreOfMotions assembly.now text.now) (¬ AreOfMotions assembly.now text.now)) }
{
    Ok(expand(alloc, assembly, text)?.is_some())
}

/// The first line, counted from 1, with which the lines before it are no longer those of motions. It
/// is searched for by halves, since the first of some lines of motions are lines of motions too.
fn first_faulty_line(alloc: Global, assembly: &Assembly, lines: &[u8]) -> Result<usize, AllocError>
    requires { ¬ AreOfMotions assembly.now lines.now }
    ensures { IfOk result (IsFirstFaulty assembly.now lines.now) }
{
    // A text has no more lines than bytes.
    let (mut good, mut faulty) = (0, lines.len());
    while faulty - good > 1 {
        let middle = good + (faulty - good) / 2;
        if are_lines_of_motions(alloc, assembly, first_lines(lines, middle))? {
            good = middle;
        } else {
            faulty = middle;
        }
    }
    Ok(faulty)
}

/// The first `count` lines of a text, or the whole text where it has fewer.
fn first_lines(text: &[u8], count: usize) -> &[u8]
    ensures { result.now ≡ first_lines_of count text.now }
{
    let mut left = count;
    for (place, byte) in text.iter().enumerate() {
        if left == 0 {
            return &text[..place];
        }
        if *byte == b'\n' {
            left -= 1;
        }
    }
    text
}

// What is wrong with a line of a sheet, in words. Nothing rests on it: whether a sheet has a plan
// is decided elsewhere.

/// What is wrong with the first faulty line of a sheet.
#[derive(Debug, Drop, Error)]
pub enum LineFault<'a> {
    #[error("a move line has the form `3 t0 A,B +x 2 out`, one blank between words")]
    Form,
    #[error("a carriage return stands before the line feed")]
    CarriageReturn,
    #[error("no line feed ends the line")]
    NoLineFeed,
    #[error("words are missing: a move line has the form `3 t0 A,B +x 2 out`")]
    TooFewWords,
    #[error("there are too many words: a move line has the form `3 t0 A,B +x 2 out`")]
    TooManyWords,
    /// Its number is not the next one.
    #[error("the number of the line is {found}, and {wanted} is next")]
    Number { found: &'a str, wanted: usize },
    #[error("`{word}` is no tray: trays are written t0 to t31", word = Shown(.0.as_bytes()))]
    Tray(&'a str),
    #[error("no piece of the assembly is named `{name}`", name = Shown(.0.as_bytes()))]
    Piece(&'a str),
    #[error("{0} is named twice")]
    Twice(&'a str),
    #[error("{0} comes too late: pieces are named in the assembly's order")]
    OutOfOrder(&'a str),
    #[error("`{word}` is no direction: these are +x -x +y -y +z -z", word = Shown(.0.as_bytes()))]
    Direction(&'a str),
    #[error("`{word}` is no number of units: these are 0 to 1000000", word = Shown(.0.as_bytes()))]
    Units(&'a str),
    /// The sixth word is another one than `out`.
    #[error("`{word}` stands where only `out` may stand", word = Shown(.0.as_bytes()))]
    Out(&'a str),
    /// Its pieces make no unit step, and do not go out.
    #[error("0 units are a move only before `out`")]
    NoMove,
    /// It goes on with the move of the line before it.
    #[error("it goes on with the line before: the units of both stand in one line")]
    SameMove,
    /// With its moves there are more than 1,000,000.
    #[error("with it there are more than 1000000 moves of a unit")]
    TooManyMoves,
}

impl<'a> LineFault<'a> {
    /// What is wrong with the first faulty line of a sheet, by its number, counted from 1.
    pub fn of(assembly: &Assembly, sheet: &'a [u8], number: usize) -> LineFault<'a> {
        match check_line(assembly, sheet, number) {
            Ok(()) => LineFault::TooManyMoves,
            Err(fault) => fault,
        }
    }
}

/// Checks a line by itself, and then beside the line before it.
fn check_line<'a>(
    assembly: &Assembly,
    sheet: &'a [u8],
    number: usize,
) -> Result<(), LineFault<'a>> {
    let words = words_at(sheet, number)?;
    words.check(assembly, number)?;
    if number > 1 && words.go_on_after(&words_at(sheet, number - 1)?) {
        return Err(LineFault::SameMove);
    }
    Ok(())
}

/// The words of a line that ends as it should.
fn words_at(sheet: &[u8], number: usize) -> Result<MoveWords<'_>, LineFault<'_>> {
    let Some(line) = numbered_line(sheet, number) else {
        return Err(LineFault::Form);
    };
    if line.bytes.ends_with(b"\r") {
        return Err(LineFault::CarriageReturn);
    }
    let is_last = numbered_line(sheet, number.saturating_add(1)).is_none();
    if is_last && !sheet.ends_with(b"\n") {
        return Err(LineFault::NoLineFeed);
    }
    match str::from_utf8(line.bytes) {
        Ok(text) => MoveWords::of(text),
        Err(_) => Err(LineFault::Form),
    }
}

// The words of a move line.

/// The words of a line that has as many words as a move line; the first is a number.
#[derive(Clone, Copy)]
pub struct MoveWords<'a> {
    number: &'a str,
    tray: &'a str,
    names: &'a str,
    direction: &'a str,
    units: &'a str,
    out: Option<&'a str>,
}

impl<'a> MoveWords<'a> {
    /// The words of a line.
    pub fn of(line: &'a str) -> Result<MoveWords<'a>, LineFault<'a>> {
        let mut words = line.split(' ');
        let number = words.next().unwrap_or("");
        if !is_number(number.as_bytes()) || has_empty_word(line) {
            return Err(LineFault::Form);
        }
        let (Some(tray), Some(names), Some(direction), Some(units)) = (
            words.next(),
            words.next(),
            words.next(),
            words.next(),
        ) else {
            return Err(LineFault::TooFewWords);
        };
        let out = words.next();
        if words.next().is_some() {
            return Err(LineFault::TooManyWords);
        }
        Ok(MoveWords {
            number,
            tray,
            names,
            direction,
            units,
            out,
        })
    }

    /// Checks each word of the line that has this number.
    pub fn check(&self, assembly: &Assembly, number: usize) -> Result<(), LineFault<'a>> {
        if self.number.parse::<usize>().ok() != Some(number) {
            return Err(LineFault::Number {
                found: self.number,
                wanted: number,
            });
        }
        if !is_tray(self.tray) {
            return Err(LineFault::Tray(self.tray));
        }
        check_names(assembly, self.names)?;
        if Direction::named(self.direction.as_bytes()).is_none() {
            return Err(LineFault::Direction(self.direction));
        }
        self.check_units()
    }

    /// Checks the words after the direction.
    fn check_units(&self) -> Result<(), LineFault<'a>> {
        if !is_at_most(self.units.as_bytes(), MOST_BUDGET) {
            return Err(LineFault::Units(self.units));
        }
        match self.out {
            Some("out") => Ok(()),
            Some(word) => Err(LineFault::Out(word)),
            None if self.units == "0" => Err(LineFault::NoMove),
            None => Ok(()),
        }
    }

    /// Whether the move goes on with that of another line: no out ends that one, and tray, pieces and
    /// direction are the same.
    pub fn go_on_after(&self, before: &MoveWords<'_>) -> bool {
        before.out.is_none()
            && before.tray == self.tray
            && before.names == self.names
            && before.direction == self.direction
    }
}

/// Whether a blank stands at an end of the line, or beside another one.
fn has_empty_word(line: &str) -> bool {
    line.split(' ').any(|word| word.is_empty())
}

/// Whether a word is a tray, as `t0`.
fn is_tray(word: &str) -> bool {
    match word.as_bytes() {
        [b't', number @ ..] => is_at_most(number, u32::from(TRAYS) - 1),
        _ => false,
    }
}

/// Whether a word is a number of 0 to this much.
fn is_at_most(word: &[u8], most: u32) -> bool {
    match integer(word) {
        Some(number) => 0 <= number && number.unsigned_abs() <= most,
        None => false,
    }
}

/// Checks that names with commas between them are those of pieces, in the assembly's order.
fn check_names<'a>(assembly: &Assembly, names: &'a str) -> Result<(), LineFault<'a>> {
    let mut named: u32 = 0;
    for name in names.split(',') {
        let Some(piece) = piece_named(assembly, name) else {
            return Err(LineFault::Piece(name));
        };
        if is_in_set(named, piece) {
            return Err(LineFault::Twice(name));
        }
        if named >> piece != 0 {
            return Err(LineFault::OutOfOrder(name));
        }
        named |= 1 << piece;
    }
    Ok(())
}

/// The piece with a name; none where no piece has it.
fn piece_named(assembly: &Assembly, name: &str) -> Option<u8>
    ensures { IfSome result (λ piece. piece < 32) }
{
    (0..assembly.piece_count()).find(|piece| assembly.piece_name(*piece) == name)
}
