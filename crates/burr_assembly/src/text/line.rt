ghost use Rattle.std.specs.Prelude.{◌≡◌, ◌↔◌, IsTrue, MatchOption};
ghost use Rattle.burr_voxels.specs.declared.cell.Cell.{Cell as CellOf};
ghost use Rattle.burr_assembly.specs.Rules.Lines.{LineForm, IsLine, IsMarks, IsPieceWords, PieceWords, PieceLine as PieceForm};
ghost use Rattle.burr_assembly.specs.Views.LineViews.{HasWords, form_of, words_of, IsCoordinateText};
ghost use Rattle.burr_assembly.specs.Rules.Text.{IsPositionText};
ghost use Rattle.burr_assembly.specs.Rules.PieceNames.{name_at};

use burr_text::{cut_at, integer, is_number, is_word};
use burr_voxels::Cell;

/// A line of an assembly text by its form alone: its words are not judged yet, and whether it may
/// stand where it stands isn't either.
#[derive(Clone, Copy)]
pub enum TextLine<'a> {
    /// `assembly NAME`
    Assembly(&'a [u8]),
    /// `shape NAME`
    Shape(&'a [u8]),
    /// `layer`
    Layer,
    /// One or more marks `#` or `.`
    Row(&'a [u8]),
    /// `end`
    End,
    /// `piece NAME SHAPE ORIENTATION X Y Z`
    Piece(PieceLine<'a>),
}

/// The words of a piece's line.
#[derive(Clone, Copy)]
pub struct PieceLine<'a> {
    pub name: &'a [u8],
    pub shape: &'a [u8],
    pub orientation: &'a [u8],
    pub x: &'a [u8],
    pub y: &'a [u8],
    pub z: &'a [u8],
}

impl TextLine<'_> {
    /// The line with these bytes, which are without its end; None where it is of no form.
    pub fn parse(bytes: &[u8]) -> Option<TextLine<'_>>
        ensures { MatchOption result ((form : LineForm) → ¬ IsLine bytes.now form) (λ line.
            IsLine bytes.now (form_of line)) }
    {
        match bytes {
            b"layer" => Some(TextLine::Layer),
            b"end" => Some(TextLine::End),
            _ if is_row(bytes) => Some(TextLine::Row(bytes)),
            _ => TextLine::with_words(bytes),
        }
    }

    /// The line of several words with these bytes.
    fn with_words(bytes: &[u8]) -> Option<TextLine<'_>>
        ensures { MatchOption result
            ((form : LineForm) → HasWords form → ¬ IsLine bytes.now form)
            (λ line. IsLine bytes.now (form_of line)) }
    {
        if let Some(name) = bytes.strip_prefix(b"assembly ") {
            is_word(name).then_some(TextLine::Assembly(name))
        } else if let Some(name) = bytes.strip_prefix(b"shape ") {
            is_word(name).then_some(TextLine::Shape(name))
        } else {
            Some(TextLine::Piece(PieceLine::parse(bytes)?))
        }
    }
}

/// Whether the bytes are one or more marks.
fn is_row(bytes: &[u8]) -> bool
    ensures { IsTrue result ↔ IsMarks bytes.now }
{
    !bytes.is_empty() && bytes.iter().all(|byte| *byte == b'#' || *byte == b'.')
}

impl PieceLine<'_> {
    /// The words after `piece `; None unless there are six words and the last three are numbers.
    fn parse(bytes: &[u8]) -> Option<PieceLine<'_>>
        ensures { MatchOption result ((w : PieceWords) → ¬ IsLine bytes.now (PieceForm w))
            (λ line. IsLine bytes.now (PieceForm (words_of line))) }
    {
        let words = bytes.strip_prefix(b"piece ")?;
        let (name, rest) = cut_at(words, b' ')?;
        let (shape, rest) = cut_at(rest, b' ')?;
        let (orientation, rest) = cut_at(rest, b' ')?;
        let (x, rest) = cut_at(rest, b' ')?;
        let (y, z) = cut_at(rest, b' ')?;
        let line = PieceLine {
            name,
            shape,
            orientation,
            x,
            y,
            z,
        };
        line.is_right().then_some(line)
    }

    /// Whether the words are words, and the last three numbers.
    fn is_right(&self) -> bool
        ensures { IsTrue result ↔ IsPieceWords (words_of self.now) }
    {
        is_word(self.name)
            && is_word(self.shape)
            && is_word(self.orientation)
            && is_number(self.x)
            && is_number(self.y)
            && is_number(self.z)
    }
}

/// A coordinate of a position is at most this, either way.
const REACH: i32 = 64;

/// The coordinate that is written so, if one of -64..64 is.
fn coordinate(text: &[u8]) -> Option<i32>
    ensures { IsCoordinateText text.now result }
{
    let value = integer(text)?;
    if -REACH <= value && value <= REACH {
        Some(value)
    } else {
        None
    }
}

/// The position whose coordinates are written so, if each is one of -64..64.
pub fn position(x: &[u8], y: &[u8], z: &[u8]) -> Option<Cell>
    ensures { MatchOption result ((c : CellOf) → ¬ IsPositionText x.now y.now z.now c)
        (IsPositionText x.now y.now z.now) }
{
    let (x, y, z) = (coordinate(x)?, coordinate(y)?, coordinate(z)?);
    Some(Cell { x, y, z })
}

/// The name of the piece with this number, counted from 0, in a text whose lines are well formed as
/// far as the line of that piece. The name is empty where the text has no such line.
pub fn piece_name(text: &[u8], piece: u8) -> &[u8]
    ensures { result.now ≡ name_at text.now piece }
{
    let mut left = piece;
    let mut rest = text;
    while let Some((line, more)) = cut_at(rest, b'\n') {
        if let Some(words) = PieceLine::parse(line) {
            if left == 0 {
                return words.name;
            }
            left -= 1;
        }
        rest = more;
    }
    b""
}
