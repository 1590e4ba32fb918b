ghost use Rattle.std.specs.Prelude.{◌≡◌, ◌==◌, ◌&&◌, ℕ, [], length, nat_lt, not};
ghost use Rattle.burr_plantext.specs.Rules.Checks.{is_empty};
ghost use Rattle.burr_plantext.specs.Rules.Lines.{AtLine, GripWords as GripSource, GuardLine, ProcedureWords, ResultLine};
ghost use Rattle.burr_plantext.specs.Rules.Right.{exit_source};
ghost use Rattle.burr_asm.specs.Views.ExitFrames.{AddsExitGuard, AddsExitPiece};
ghost use Rattle.burr_asm.specs.Views.ExitLines.{AddsExitLine};
ghost use Rattle.burr_asm.specs.Views.Exits.{IsExitFor, IsSignature};
ghost use Rattle.burr_asm.specs.Views.Frames.{IsGrip};
ghost use Rattle.burr_asm.specs.Views.LineWords.{line_words, piece_words, range_words};

use crate::fault::AsmFault;
use crate::text::form::FormWord;
use crate::text::frame::{Grip, add_form, add_place};
use crate::text::line::{LineForm, PieceWords, RangeWords};
use crate::text::numbers::range;
use crate::text::signature::Signature;
use burr_code::limits::{MOST_GUARDS, SLOTS};
use burr_container::ExitFrame;
use std::alloc::Global;
use std::mem::replace;

/// An exit frame as far as it has been read: its results first, then its guards, then its pieces.
#[derive(Drop)]
pub struct Exit {
    signature: Signature,
    frame: ExitFrame,
}

impl Exit {
    /// An exit frame whose first line has been read, and no other.
    pub fn new(alloc: Global, signature: Signature, grip: Grip) -> Exit
        ensures { (version : ℕ) (h : ProcedureWords) (words : GripSource)
            → IsSignature signature version h → IsGrip grip words
            → IsExitFor result version h (exit_source words [] [] []) }
    {
        Exit {
            signature,
            frame: ExitFrame {
                tray: grip.tray,
                grip: grip.set,
                results: Vec::new(alloc),
                guards: Vec::new(alloc),
                places: Vec::new(alloc),
            },
        }
    }

    /// One more line.
    pub fn add(&mut self, form: LineForm<'_>, line: usize) -> Result<(), AsmFault>
        ensures { AddsExitLine self.old (line_words form.entry) line self.new result }
    {
        match form {
            LineForm::Result(words) => self.add_result(words, line),
            LineForm::Guard(form) => self.add_guard(form, line),
            LineForm::At(words) => self.add_piece(words, line),
            _ => Err(AsmFault::P1 { line }),
        }
    }

    /// Whether the places of all pieces have been read, where the plan has this many.
    pub fn is_whole(&self, pieces: u8) -> bool
        ensures { result ≡ (length self.now.frame.places == pieces) }
    {
        self.frame.places.len() == usize::from(pieces)
    }

    /// Takes out what has been read.
    pub fn take_frame(&mut self, alloc: Global) -> ExitFrame
        ensures { result ≡ self.old.frame }
    {
        ExitFrame {
            tray: self.frame.tray,
            grip: self.frame.grip,
            results: replace(&mut self.frame.results, Vec::new(alloc)),
            guards: replace(&mut self.frame.guards, Vec::new(alloc)),
            places: replace(&mut self.frame.places, Vec::new(alloc)),
        }
    }

    /// Whether results are still due.
    fn lacks_results(&self) -> bool
        ensures { result ≡ nat_lt (length self.now.frame.results) self.now.signature.results }
    {
        self.frame.results.len() < usize::from(self.signature.results)
    }

    /// Whether a guard may stand next.
    fn takes_guards(&self) -> bool
        ensures { result ≡ ((self.now.signature.version == 2)
            && not (nat_lt (length self.now.frame.results) self.now.signature.results)
            && is_empty self.now.frame.places) }
    {
        self.signature.version == 2 && !self.lacks_results() && self.frame.places.is_empty()
    }

    /// A line `result`, before all guards and pieces.
    fn add_result(&mut self, words: RangeWords<'_>, line: usize) -> Result<(), AsmFault>
        ensures { AddsExitLine self.old (ResultLine (range_words words.entry)) line
            self.new result }
    {
        if !self.lacks_results() {
            return Err(AsmFault::P1 { line });
        }
        match range(words.low, words.high) {
            Some(range) => {
                self.frame.results.push(range)?;
                Ok(())
            }
            None => Err(AsmFault::P3 { line }),
        }
    }

    /// A line `guard`, after all results and before all pieces.
    fn add_guard(&mut self, form: FormWord<'_>, line: usize) -> Result<(), AsmFault>
        ensures { AddsExitLine self.old (GuardLine form.entry.bytes.now) line self.new result }
    {
        if !self.takes_guards() {
            return Err(AsmFault::P1 { line });
        }
        let symbols = self.signature.symbols();
        add_guard(&mut self.frame, &symbols, form, line)
    }

    /// A line `at`, after all results.
    fn add_piece(&mut self, words: PieceWords<'_>, line: usize) -> Result<(), AsmFault>
        ensures { AddsExitLine self.old (AtLine (piece_words words.entry)) line self.new result }
    {
        if self.lacks_results() {
            return Err(AsmFault::P1 { line });
        }
        let symbols = self.signature.symbols();
        add_piece(&mut self.frame, &symbols, words, line)
    }
}

/// A guard of an exit frame, over these symbols.
fn add_guard(
    frame: &mut ExitFrame,
    symbols: &[bool; SLOTS],
    form: FormWord<'_>,
    line: usize,
) -> Result<(), AsmFault>
    ensures { AddsExitGuard symbols.now frame.old form.entry.bytes.now line frame.new result }
{
    add_form(&mut frame.guards, MOST_GUARDS, symbols, form, line)
}

/// A piece of an exit frame, over these symbols.
fn add_piece(
    frame: &mut ExitFrame,
    symbols: &[bool; SLOTS],
    words: PieceWords<'_>,
    line: usize,
) -> Result<(), AsmFault>
    ensures { AddsExitPiece symbols.now frame.old (piece_words words.entry) line frame.new result }
{
    add_place(&mut frame.places, symbols, words, line)
}
