ghost use Rattle.std.specs.Prelude.{◌≡◌};
ghost use Rattle.burr_plantext.specs.Rules.Texts.{first_word, unended_line, Unread};
ghost use Rattle.burr_asm.specs.Views.LineWords.{line_words, procedure_words};
ghost use Rattle.burr_asm.specs.Views.FrontSteps.{EndsText, GivesFault, GivesFront, GivesNext, GivesUnderWay, GivesWithin, front_after, misses, NextProcedure};
ghost use Rattle.burr_asm.specs.Views.Steps.{changed};
ghost use Rattle.burr_asm.specs.declared.text.front.Front.TheVariants.{AwaitsMain, AwaitsPlan, InProcedure};

use crate::fault::AsmFault;
use crate::text::line::{LineForm, ProcedureWords};
use crate::text::outline::Outline;
use crate::text::procedure::Routine;
use crate::text::stage::Stage;
use crate::text::words::is_skipped;
use burr_container::Plan;
use std::alloc::Global;

/// What the lines so far have been, and so what may stand next.
#[derive(Drop)]
pub enum Front<'a> {
    /// No line yet: the plan's is due.
    AwaitsPlan,
    /// The plan's line: that of main is due.
    AwaitsMain(Outline<'a>),
    /// Lines of a procedure that has not ended, after procedures that have.
    InProcedure(UnderWay<'a>),
}

/// A procedure that has not ended, in its plan.
#[derive(Drop)]
pub struct UnderWay<'a> {
    outline: Outline<'a>,
    routine: Routine<'a>,
    stage: Stage,
}

impl<'a> Front<'a> {
    /// One more line, which is given without its end; or that line's first fault.
    pub fn add(&mut self, alloc: Global, bytes: &'a [u8], line: usize) -> Result<(), AsmFault>
        ensures { GivesNext self.old bytes.now line (changed self.new result) }
    {
        if is_skipped(bytes) {
            return Ok(());
        }
        match LineForm::parse(bytes) {
            Some(form) => self.add_form(alloc, form, line),
            None => Err(self.unread(bytes, line)),
        }
    }

    /// One more line of this form.
    fn add_form(&mut self, alloc: Global, form: LineForm<'a>, line: usize) -> Result<(), AsmFault>
        ensures { GivesFront self.old (line_words form.entry) line (changed self.new result) }
    {
        if let Some(next) = self.next(alloc, form, line)? {
            *self = next;
        }
        Ok(())
    }

    /// What the lines have been with one more of this form; None where the procedure under way goes
    /// on.
    fn next(
        &mut self,
        alloc: Global,
        form: LineForm<'a>,
        line: usize,
    ) -> Result<Option<Front<'a>>, AsmFault>
        ensures { GivesFront self.old (line_words form.entry) line (front_after self.new result) }
    {
        match self {
            Front::AwaitsPlan => begin_plan(alloc, form, line),
            Front::AwaitsMain(outline) => begin_main(alloc, outline, form, line),
            Front::InProcedure(under_way) => under_way.next(alloc, form, line),
        }
    }

    /// The fault of a line that is of no form, or isn't ended; it isn't skipped.
    fn unread(&self, bytes: &[u8], line: usize) -> AsmFault
        ensures { GivesFault self.now (Unread (first_word bytes.now)) line result }
    {
        if self.misses_part(bytes) {
            AsmFault::P5 { line }
        } else {
            AsmFault::P1 { line }
        }
    }

    /// Whether a line shows by its first word that a part of the procedure under way is missing.
    fn misses_part(&self, bytes: &[u8]) -> bool
        ensures { result ≡ misses self.now (first_word bytes.now) }
    {
        match self {
            Front::AwaitsPlan | Front::AwaitsMain(_) => false,
            Front::InProcedure(under_way) => under_way.stage.misses_part(bytes),
        }
    }

    /// The fault of a last line that isn't ended.
    pub fn unended(&self, bytes: &[u8], line: usize) -> AsmFault
        ensures { GivesFault self.now (unended_line bytes.now) line result }
    {
        if is_skipped(bytes) {
            AsmFault::P1 { line }
        } else {
            self.unread(bytes, line)
        }
    }

    /// The plan, where the text may end here; `line` is the one after the last.
    pub fn finish(&mut self, alloc: Global, line: usize) -> Result<Plan, AsmFault>
        ensures { EndsText self.old line result }
    {
        match self {
            Front::InProcedure(under_way) => under_way.finish(alloc, line),
            _ => Err(AsmFault::P1 { line }),
        }
    }
}

/// The plan's line.
fn begin_plan(alloc: Global, form: LineForm<'_>, line: usize) -> Result<Option<Front<'_>>, AsmFault>
    ensures { GivesFront AwaitsPlan (line_words form.entry) line (front_after AwaitsPlan result) }
{
    match form {
        LineForm::Plan(words) => { Ok(Some(Front::AwaitsMain(Outline::new(alloc, words, line)?))) }
        _ => Err(AsmFault::P1 { line }),
    }
}

/// The line of main after the plan's.
fn begin_main<'a>(
    alloc: Global,
    outline: &mut Outline<'a>,
    form: LineForm<'a>,
    line: usize,
) -> Result<Option<Front<'a>>, AsmFault>
    ensures { GivesFront (AwaitsMain outline.old) (line_words form.entry) line
        (front_after (AwaitsMain outline.new) result) }
{
    match form {
        LineForm::Procedure(words) => {
            if !words.are_of(outline.version()) {
                return Err(AsmFault::P1 { line });
            }
            let routine = outline.begin(alloc, words, line)?;
            Ok(Some(Front::InProcedure(UnderWay {
                outline: outline.take(alloc),
                routine,
                stage: Stage::AwaitsLabel,
            })))
        }
        _ => Err(AsmFault::P1 { line }),
    }
}

impl<'a> UnderWay<'a> {
    /// What the lines have been with one more of this form; None where the procedure goes on.
    fn next(
        &mut self,
        alloc: Global,
        form: LineForm<'a>,
        line: usize,
    ) -> Result<Option<Front<'a>>, AsmFault>
        ensures { GivesUnderWay self.old.outline self.old.routine self.old.stage
            (line_words form.entry) line (front_after (InProcedure self.new) result) }
    {
        match form {
            LineForm::Procedure(words) => match self.stage {
                Stage::InCode => self.next_procedure(alloc, words, line),
                _ => self.add(alloc, form, line),
            },
            _ => self.add(alloc, form, line),
        }
    }

    /// A line `proc` after the code of the procedure, which ends here.
    fn next_procedure(
        &mut self,
        alloc: Global,
        words: ProcedureWords<'a>,
        line: usize,
    ) -> Result<Option<Front<'a>>, AsmFault>
        ensures { NextProcedure self.old.outline self.old.routine (procedure_words words.entry)
            line (front_after (InProcedure self.new) result) }
    {
        if !words.are_of(self.outline.version()) {
            return Err(AsmFault::P1 { line });
        }
        self.outline.end(alloc, &mut self.routine)?;
        let routine = self.outline.begin(alloc, words, line)?;
        Ok(Some(Front::InProcedure(UnderWay {
            outline: self.outline.take(alloc),
            routine,
            stage: Stage::AwaitsExit,
        })))
    }

    /// One more line, after which the procedure has not ended.
    fn add(
        &mut self,
        alloc: Global,
        form: LineForm<'a>,
        line: usize,
    ) -> Result<Option<Front<'a>>, AsmFault>
        ensures { GivesWithin self.old.outline self.old.routine self.old.stage
            (line_words form.entry) line (front_after (InProcedure self.new) result) }
    {
        let pieces = self.outline.pieces();
        match self
            .stage
            .next(alloc, &mut self.routine, pieces, form, line)?
        {
            None => Ok(None),
            Some(next) => {
                self.stage = next;
                Ok(None)
            }
        }
    }

    /// The plan, where the text may end here; `line` is the one after the last.
    fn finish(&mut self, alloc: Global, line: usize) -> Result<Plan, AsmFault>
        ensures { EndsText (InProcedure self.old) line result }
    {
        self.stage.end(line)?;
        self.outline.end(alloc, &mut self.routine)?;
        self.outline.take(alloc).resolve(alloc)
    }
}
