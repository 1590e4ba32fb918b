ghost use Rattle.std.specs.Prelude.{◌≡◌, ◌≤◌};
ghost use Rattle.burr_plantext.specs.Rules.Texts.{first_word};
ghost use Rattle.burr_asm.specs.Views.LineWords.{line_words};
ghost use Rattle.burr_asm.specs.Views.Routines.{RoutineParts};
ghost use Rattle.burr_asm.specs.Views.Steps.{misses_part, EndsStage, GivesInAny, GivesStage};
ghost use Rattle.burr_asm.specs.Views.Steps.{stage_after};
ghost use Rattle.burr_asm.specs.declared.text.stage.Stage.TheVariants.{AwaitsExit, AwaitsFrame};
ghost use Rattle.burr_asm.specs.declared.text.stage.Stage.TheVariants.{AwaitsLabel, AwaitsPieces};
ghost use Rattle.burr_asm.specs.declared.text.stage.Stage.TheVariants.{InCode, InExit, InFrame};

use crate::fault::AsmFault;
use crate::text::exit::Exit;
use crate::text::frame::{Conditions, Grip, add_piece, take_frame};
use crate::text::line::LineForm;
use crate::text::procedure::Routine;
use crate::text::words::first_word;
use burr_container::Frame;
use std::alloc::Global;

/// What the lines of a procedure so far have been, and so what may stand next.
#[derive(Drop)]
pub enum Stage {
    /// The line of a procedure that isn't main: its exit frame is due.
    AwaitsExit,
    /// An exit frame: its results, guards or pieces are due.
    InExit(Exit),
    /// What stands before a procedure's code: its first label is due.
    AwaitsLabel,
    /// A label: its frame is due.
    AwaitsFrame,
    /// A frame before its cost.
    InFrame(Conditions),
    /// A frame with its cost: pieces are due.
    AwaitsPieces(Frame),
    /// After a frame: code, a label, a procedure or the end may stand next.
    InCode,
}

impl Stage {
    /// Whether a line shows by its first word that the procedure's first label or the frame of a
    /// label is missing.
    pub fn misses_part(&self, bytes: &[u8]) -> bool
        ensures { result ≡ misses_part self.now (first_word bytes.now) }
    {
        match self {
            Stage::AwaitsLabel => first_word(bytes) != b"label".as_slice(),
            Stage::AwaitsFrame => first_word(bytes) != b"frame".as_slice(),
            _ => false,
        }
    }

    /// The fault of a text that ends here, if it may not; `line` is the one after its last.
    pub fn end(&self, line: usize) -> Result<(), AsmFault>
        ensures { EndsStage self.now line result }
    {
        match self {
            Stage::InCode => Ok(()),
            Stage::AwaitsLabel | Stage::AwaitsFrame => Err(AsmFault::P5 { line }),
            _ => Err(AsmFault::P1 { line }),
        }
    }

    /// Adds one more line, of this form, to the procedure; the plan has this many pieces. Gives the
    /// stage after it; None where this one goes on. A `proc` line is refused at every stage: the one
    /// that may stand after a frame is for the caller.
    pub fn next<'a>(
        &mut self,
        alloc: Global,
        routine: &mut Routine<'a>,
        pieces: u8,
        form: LineForm<'a>,
        line: usize,
    ) -> Result<Option<Stage>, AsmFault>
        requires few { pieces ≤ 32 }
        requires several { 2 ≤ pieces }
        ensures { let given = line_words form.entry in
            GivesStage self.old routine.old pieces given line routine.new
            (stage_after self.new result) }
    {
        match self {
            Stage::AwaitsExit => begins_exit(alloc, routine, pieces, form, line),
            Stage::InExit(exit) => in_exit(alloc, routine, exit, pieces, form, line),
            Stage::AwaitsLabel => first_label(routine, form, line),
            Stage::AwaitsFrame => begins_frame(alloc, pieces, form, line),
            Stage::InFrame(conditions) => in_frame(alloc, conditions, form, line),
            Stage::AwaitsPieces(frame) => in_pieces(alloc, routine, frame, pieces, form, line),
            Stage::InCode => in_code(routine, form, line),
        }
    }
}

/// The first line of an exit frame.
fn begins_exit(
    alloc: Global,
    routine: &Routine<'_>,
    pieces: u8,
    form: LineForm<'_>,
    line: usize,
) -> Result<Option<Stage>, AsmFault>
    requires { pieces ≤ 32 }
    ensures { let given = line_words form.entry in
        GivesStage AwaitsExit routine.now pieces given line routine.now
        (stage_after AwaitsExit result) }
{
    match form {
        LineForm::Exit(words) => {
            let grip = Grip::of(words, pieces, line)?;
            Ok(Some(Stage::InExit(Exit::new(alloc, routine.signature(), grip))))
        }
        _ => Err(AsmFault::P1 { line }),
    }
}

/// A line of an exit frame, after its first.
fn in_exit(
    alloc: Global,
    routine: &mut Routine<'_>,
    exit: &mut Exit,
    pieces: u8,
    form: LineForm<'_>,
    line: usize,
) -> Result<Option<Stage>, AsmFault>
    requires { 2 ≤ pieces }
    ensures { let given = line_words form.entry in
        GivesStage (InExit exit.old) routine.old pieces given line routine.new
        (stage_after (InExit exit.new) result) }
{
    exit.add(form, line)?;
    if !exit.is_whole(pieces) {
        return Ok(None);
    }
    routine.set_exit(exit.take_frame(alloc));
    Ok(Some(Stage::AwaitsLabel))
}

/// The line of a procedure's first label.
fn first_label<'a>(
    routine: &mut Routine<'a>,
    form: LineForm<'a>,
    line: usize,
) -> Result<Option<Stage>, AsmFault>
    ensures { GivesInAny AwaitsLabel routine.old (line_words form.entry) line routine.new
        (stage_after AwaitsLabel result) }
{
    match form {
        LineForm::Label(name) => {
            routine.add_label(name, line)?;
            Ok(Some(Stage::AwaitsFrame))
        }
        _ => Err(AsmFault::P5 { line }),
    }
}

/// The first line of a label's frame.
fn begins_frame(
    alloc: Global,
    pieces: u8,
    form: LineForm<'_>,
    line: usize,
) -> Result<Option<Stage>, AsmFault>
    requires { pieces ≤ 32 }
    ensures { (r : RoutineParts) → GivesStage AwaitsFrame r pieces (line_words form.entry) line r
        (stage_after AwaitsFrame result) }
{
    match form {
        LineForm::Frame(words) => {
            let grip = Grip::of(words, pieces, line)?;
            Ok(Some(Stage::InFrame(Conditions::new(alloc, grip))))
        }
        _ => Err(AsmFault::P5 { line }),
    }
}

/// A line of a frame, as far as its cost.
fn in_frame(
    alloc: Global,
    conditions: &mut Conditions,
    form: LineForm<'_>,
    line: usize,
) -> Result<Option<Stage>, AsmFault>
    ensures { (r : RoutineParts)
        → GivesInAny (InFrame conditions.old) r (line_words form.entry) line r
        (stage_after (InFrame conditions.new) result) }
{
    if let LineForm::Cost(form) = form {
        let frame = conditions.take_frame(alloc, form, line)?;
        return Ok(Some(Stage::AwaitsPieces(frame)));
    }
    conditions.add(form, line)?;
    Ok(None)
}

/// A line of a label's frame after its cost.
fn in_pieces(
    alloc: Global,
    routine: &mut Routine<'_>,
    frame: &mut Frame,
    pieces: u8,
    form: LineForm<'_>,
    line: usize,
) -> Result<Option<Stage>, AsmFault>
    ensures { let given = line_words form.entry in
        GivesStage (AwaitsPieces frame.old) routine.old pieces given line routine.new
        (stage_after (AwaitsPieces frame.new) result) }
{
    let LineForm::At(words) = form else {
        return Err(AsmFault::P1 { line });
    };
    add_piece(frame, words, line)?;
    if frame.places.len() != usize::from(pieces) {
        return Ok(None);
    }
    routine.add_frame(take_frame(alloc, frame))?;
    Ok(Some(Stage::InCode))
}

/// A line after a frame: code or a label.
fn in_code<'a>(
    routine: &mut Routine<'a>,
    form: LineForm<'a>,
    line: usize,
) -> Result<Option<Stage>, AsmFault>
    ensures { GivesInAny InCode routine.old (line_words form.entry) line routine.new
        (stage_after InCode result) }
{
    match form {
        LineForm::Code(code) => {
            routine.add_code(code, line)?;
            Ok(None)
        }
        LineForm::Label(name) => {
            routine.add_label(name, line)?;
            Ok(Some(Stage::AwaitsFrame))
        }
        _ => Err(AsmFault::P1 { line }),
    }
}
