ghost use Rattle.std.specs.Prelude.{◌≡◌, None, Some, MatchOption, ◌≢◌};
ghost use Rattle.burr_plantext.specs.Rules.Checks.{is_of_version};
ghost use Rattle.burr_plantext.specs.Rules.Lines.{PlanLine, ProcLine, AtLine, grip_line, line_of, piece_line, procedure_line, title_line};
ghost use Rattle.burr_plantext.specs.Rules.Operands.{three, two};
ghost use Rattle.burr_plantext.specs.Rules.Texts.{words_of};
ghost use Rattle.burr_plantext.specs.Rules.Written.{is_form, is_number};
ghost use Rattle.burr_asm.specs.Views.Keywords.{keyword_line, word_of};
ghost use Rattle.burr_asm.specs.Views.LineWords.{grip_words, line_words, piece_words, place_words, plan_words, procedure_words, range_between, range_words, slot_between, slot_words, word_if_any};
ghost use Rattle.burr_asm.specs.Views.Places.{place_line, three_words};
ghost use Rattle.burr_asm.specs.Views.Words.{cut_word};
ghost use Rattle.burr_asm.specs.declared.text.line.Keyword.{Keyword as KeywordOf};

use crate::text::code::CodeLine;
use crate::text::form::FormWord;
use crate::text::words::{NumberWord, SetWord, cut_name, name};
use burr_text::cut_at;

/// A line of a plan text by its form alone: its numbers, sets and forms are not judged yet, its
/// names are not looked for, and whether it may stand where it stands isn't judged either.
#[derive(Clone, Copy)]
pub enum LineForm<'a> {
    /// `plan NAME PIECES BUDGET` or `plan2 NAME PIECES BUDGET`
    Plan(PlanWords<'a>),
    /// `proc NAME PARAMETERS` or `proc NAME PARAMETERS RESULTS`
    Procedure(ProcedureWords<'a>),
    /// `exit TRAY SET`
    Exit(GripWords<'a>),
    /// `result LOW HIGH`
    Result(RangeWords<'a>),
    /// `label NAME`
    Label(&'a [u8]),
    /// `frame TRAY SET`
    Frame(GripWords<'a>),
    /// `slot SLOT LOW HIGH`
    Slot(SlotWords<'a>),
    /// `guard FORM`
    Guard(FormWord<'a>),
    /// `stack FORM`
    Stack(FormWord<'a>),
    /// `cost FORM`
    Cost(FormWord<'a>),
    /// `at PIECE apart` or `at PIECE TRAY FORM FORM FORM`
    At(PieceWords<'a>),
    /// A line of code.
    Code(CodeLine<'a>),
}

/// The words of the plan's line. Its first word tells the plan's version, 1 or 2.
#[derive(Clone, Copy)]
pub struct PlanWords<'a> {
    pub version: u16,
    pub name: &'a [u8],
    pub pieces: NumberWord<'a>,
    pub budget: NumberWord<'a>,
}

/// The words of a procedure's line.
#[derive(Clone, Copy)]
pub struct ProcedureWords<'a> {
    pub name: &'a [u8],
    pub parameters: NumberWord<'a>,
    /// None where the line ends before them.
    pub results: Option<NumberWord<'a>>,
}

/// The words with which a frame begins.
#[derive(Clone, Copy)]
pub struct GripWords<'a> {
    pub tray: NumberWord<'a>,
    pub set: SetWord<'a>,
}

/// The words of a slot's line.
#[derive(Clone, Copy)]
pub struct SlotWords<'a> {
    pub slot: NumberWord<'a>,
    pub range: RangeWords<'a>,
}

/// The words of a range.
#[derive(Clone, Copy)]
pub struct RangeWords<'a> {
    pub low: NumberWord<'a>,
    pub high: NumberWord<'a>,
}

/// The words of a piece's line.
#[derive(Clone, Copy)]
pub struct PieceWords<'a> {
    pub piece: NumberWord<'a>,
    pub place: PlaceWords<'a>,
}

/// Where a piece is said to lie.
#[derive(Clone, Copy)]
pub enum PlaceWords<'a> {
    Apart,
    On(NumberWord<'a>, FormWord<'a>, FormWord<'a>, FormWord<'a>),
}

impl LineForm<'_> {
    /// The line with these bytes, which are without its end; None where it is of no form.
    pub fn parse(bytes: &[u8]) -> Option<LineForm<'_>>
        ensures { MatchOption result (line_of (words_of bytes.now) ≡ None) (λ form.
            line_of (words_of bytes.now) ≡ Some (line_words form)) }
    {
        match cut_at(bytes, b' ') {
            Some((word, words)) => LineForm::with_words(Keyword::of(word)?, words),
            None => Some(LineForm::Code(CodeLine::of_word(bytes)?)),
        }
    }

    /// The line that begins with a keyword, and what stands after the blank.
    fn with_words(keyword: Keyword, words: &[u8]) -> Option<LineForm<'_>>
        ensures { MatchOption result (keyword_line keyword (words_of words.now) ≡ None) (λ form.
            keyword_line keyword (words_of words.now) ≡ Some (line_words form)) }
    {
        match keyword {
            Keyword::Plan => Some(LineForm::Plan(PlanWords::parse(1, words)?)),
            Keyword::Plan2 => Some(LineForm::Plan(PlanWords::parse(2, words)?)),
            Keyword::Procedure => Some(LineForm::Procedure(ProcedureWords::parse(words)?)),
            Keyword::Exit => Some(LineForm::Exit(GripWords::parse(words)?)),
            Keyword::Result => Some(LineForm::Result(RangeWords::parse(words)?)),
            Keyword::Label => Some(LineForm::Label(name(words)?)),
            Keyword::Frame => Some(LineForm::Frame(GripWords::parse(words)?)),
            Keyword::Slot => Some(LineForm::Slot(SlotWords::parse(words)?)),
            Keyword::Guard => Some(LineForm::Guard(FormWord::parse(words)?)),
            Keyword::Stack => Some(LineForm::Stack(FormWord::parse(words)?)),
            Keyword::Cost => Some(LineForm::Cost(FormWord::parse(words)?)),
            Keyword::At => Some(LineForm::At(PieceWords::parse(words)?)),
            Keyword::Code(keyword) => Some(LineForm::Code(CodeLine::with_operands(
                keyword, words,
            )?)),
        }
    }
}

impl PlanWords<'_> {
    /// A name and two numbers.
    fn parse(version: u16, bytes: &[u8]) -> Option<PlanWords<'_>>
        ensures { MatchOption result (title_line version (words_of bytes.now) ≡ None) (λ words.
            title_line version (words_of bytes.now) ≡ Some (PlanLine (plan_words words))) }
    {
        let (name, rest) = cut_name(bytes)?;
        let (pieces, rest) = NumberWord::cut(rest)?;
        let budget = NumberWord::parse(rest)?;
        Some(PlanWords {
            version,
            name,
            pieces,
            budget,
        })
    }
}

impl ProcedureWords<'_> {
    /// A name and one number or two.
    fn parse(bytes: &[u8]) -> Option<ProcedureWords<'_>>
        ensures { MatchOption result (procedure_line (words_of bytes.now) ≡ None) (λ words.
            procedure_line (words_of bytes.now) ≡ Some (ProcLine (procedure_words words))) }
    {
        let (name, rest) = cut_name(bytes)?;
        match NumberWord::cut(rest) {
            Some((parameters, results)) => {
                let results = Some(NumberWord::parse(results)?);
                Some(ProcedureWords {
                    name,
                    parameters,
                    results,
                })
            }
            None => Some(ProcedureWords {
                name,
                parameters: NumberWord::parse(rest)?,
                results: None,
            }),
        }
    }

    /// Whether the line of a procedure has these words in a plan of this version.
    pub fn are_of(&self, version: u16) -> bool
        ensures { result ≡ is_of_version version (word_if_any self.now.results) }
    {
        match self.results {
            None => version == 1,
            Some(_) => version == 2,
        }
    }
}

impl GripWords<'_> {
    /// A number and a set.
    fn parse(bytes: &[u8]) -> Option<GripWords<'_>>
        ensures { MatchOption result (grip_line (λ g. g) (words_of bytes.now) ≡ None) (λ words.
            grip_line (λ g. g) (words_of bytes.now) ≡ Some (grip_words words)) }
    {
        let (tray, set) = NumberWord::cut(bytes)?;
        let set = SetWord::parse(set)?;
        Some(GripWords { tray, set })
    }
}

impl SlotWords<'_> {
    /// A number and a range.
    fn parse(bytes: &[u8]) -> Option<SlotWords<'_>>
        ensures { MatchOption result
            (three is_number is_number is_number slot_between (words_of bytes.now) ≡ None)
            (λ words. three is_number is_number is_number slot_between (words_of bytes.now)
            ≡ Some (slot_words words)) }
    {
        let (slot, range) = NumberWord::cut(bytes)?;
        let range = RangeWords::parse(range)?;
        Some(SlotWords { slot, range })
    }
}

impl RangeWords<'_> {
    /// Two numbers.
    fn parse(bytes: &[u8]) -> Option<RangeWords<'_>>
        ensures { MatchOption result
            (two is_number is_number range_between (words_of bytes.now) ≡ None)
            (λ words. two is_number is_number range_between (words_of bytes.now)
            ≡ Some (range_words words)) }
    {
        let (low, high) = NumberWord::cut(bytes)?;
        let high = NumberWord::parse(high)?;
        Some(RangeWords { low, high })
    }
}

impl PieceWords<'_> {
    /// A number and a place.
    fn parse(bytes: &[u8]) -> Option<PieceWords<'_>>
        ensures { MatchOption result (piece_line (words_of bytes.now) ≡ None) (λ words.
            piece_line (words_of bytes.now) ≡ Some (AtLine (piece_words words))) }
    {
        let (piece, rest) = NumberWord::cut(bytes)?;
        let place = PlaceWords::parse(rest)?;
        Some(PieceWords { piece, place })
    }
}

impl PlaceWords<'_> {
    /// `apart`, or a number and three forms.
    fn parse(bytes: &[u8]) -> Option<PlaceWords<'_>>
        ensures { MatchOption result (place_line (words_of bytes.now) ≡ None) (λ words.
            place_line (words_of bytes.now) ≡ Some (place_words words)) }
    {
        if bytes == b"apart".as_slice() {
            return Some(PlaceWords::Apart);
        }
        let (tray, forms) = NumberWord::cut(bytes)?;
        let (x, y, z) = three_forms(forms)?;
        Some(PlaceWords::On(tray, x, y, z))
    }
}

/// Three forms, joined by blanks.
fn three_forms(bytes: &[u8]) -> Option<(FormWord<'_>, FormWord<'_>, FormWord<'_>)>
    ensures { MatchOption result
        (three is_form is_form is_form three_words (words_of bytes.now) ≡ None)
        (λ forms. three is_form is_form is_form three_words (words_of bytes.now)
        ≡ Some (forms.0.bytes.now, forms.1.bytes.now, forms.2.bytes.now)) }
{
    let (x, rest) = cut_form(bytes)?;
    let (y, rest) = cut_form(rest)?;
    Some((x, y, FormWord::parse(rest)?))
}

/// A form up to the first blank, and what stands after the blank.
fn cut_form(bytes: &[u8]) -> Option<(FormWord<'_>, &[u8])>
    ensures { MatchOption result (cut_word is_form (words_of bytes.now) ≡ None) (λ parts.
        cut_word is_form (words_of bytes.now) ≡ Some (parts.0.bytes.now, words_of parts.1.now)) }
{
    let (form, rest) = cut_at(bytes, b' ')?;
    Some((FormWord::parse(form)?, rest))
}

/// The word with which a line begins that has others after it.
#[derive(Clone, Copy)]
pub enum Keyword {
    Plan,
    Plan2,
    Procedure,
    Exit,
    Result,
    Label,
    Frame,
    Slot,
    Guard,
    Stack,
    Cost,
    At,
    /// That of a line of code.
    Code(CodeKeyword),
}

/// The word of an instruction that has operands, or of a raw byte.
#[derive(Clone, Copy)]
pub enum CodeKeyword {
    Number(NumberKeyword),
    Ask,
    Grip,
    Step,
    Aside,
    Jump,
    Down,
    Pick,
    Call,
    Byte,
}

/// The word of an instruction whose only operand is a number.
#[derive(Clone, Copy)]
pub enum NumberKeyword {
    Push,
    Load,
    Store,
    Tray,
}

/// All keywords, as they are written: those first that texts have most of, since a word is looked for from
/// the first on.
const KEYWORDS: [(&[u8], Keyword); 25] = [
    (b"at", Keyword::At),
    (b"slot", Keyword::Slot),
    (b"guard", Keyword::Guard),
    (b"stack", Keyword::Stack),
    (b"cost", Keyword::Cost),
    (b"frame", Keyword::Frame),
    (b"label", Keyword::Label),
    (
        b"push",
        Keyword::Code(CodeKeyword::Number(NumberKeyword::Push)),
    ),
    (
        b"load",
        Keyword::Code(CodeKeyword::Number(NumberKeyword::Load)),
    ),
    (
        b"store",
        Keyword::Code(CodeKeyword::Number(NumberKeyword::Store)),
    ),
    (b"step", Keyword::Code(CodeKeyword::Step)),
    (b"down", Keyword::Code(CodeKeyword::Down)),
    (b"aside", Keyword::Code(CodeKeyword::Aside)),
    (b"jump", Keyword::Code(CodeKeyword::Jump)),
    (b"grip", Keyword::Code(CodeKeyword::Grip)),
    (
        b"tray",
        Keyword::Code(CodeKeyword::Number(NumberKeyword::Tray)),
    ),
    (b"ask", Keyword::Code(CodeKeyword::Ask)),
    (b"call", Keyword::Code(CodeKeyword::Call)),
    (b"byte", Keyword::Code(CodeKeyword::Byte)),
    (b"pick", Keyword::Code(CodeKeyword::Pick)),
    (b"proc", Keyword::Procedure),
    (b"exit", Keyword::Exit),
    (b"result", Keyword::Result),
    (b"plan", Keyword::Plan),
    (b"plan2", Keyword::Plan2),
];

impl Keyword {
    /// The keyword that a word is; None where the word is no keyword.
    pub fn of(word: &[u8]) -> Option<Keyword>
        ensures { MatchOption result ((k : KeywordOf) → word_of k ≢ word.now) (λ keyword.
            word_of keyword ≡ word.now) }
    {
        for (text, keyword) in &KEYWORDS {
            if word == *text {
                return Some(*keyword);
            }
        }
        None
    }
}
